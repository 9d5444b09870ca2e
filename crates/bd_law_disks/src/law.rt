//! The laws of told content. Each function says one of them: its body is empty, and its clause is the
//! law, which the definitions alone prove.
ghost use Rattle.bd_law_disks.specs.Laws.{DiskChangeIsTold, GuardsAreSame, MemoryIsApart, OwnChangeIsSame, OwnStepsAreSame, StartIsTold};
ghost use Rattle.bd_law_disks.specs.Laws.{OverGoesOn, OverIsTold, OverKeepsBases, OwnIsOver, StartIsOnce};

/// What lets a thread make an entry is the same whatever its disks hold, of every act.
pub fn guards_are_same()
    ensures { GuardsAreSame }
{}

/// What an act changes that is the thread's own is the same whatever its disks hold.
pub fn own_change_is_same()
    ensures { OwnChangeIsSame }
{}

/// Entries of own acts lead on in the same way whatever the thread's disks hold.
pub fn own_steps_are_same()
    ensures { OwnStepsAreSame }
{}

/// Where a disk applies a piece, the change is the same but for the content after the piece, and for
/// what the piece read.
pub fn disk_change_is_told()
    ensures { DiskChangeIsTold }
{}

/// What a thread does over what its disks hold are steps of the machine where that is told.
pub fn over_is_told()
    ensures { OverIsTold }
{}

/// What a thread does without its disks it does over whatever they hold, and leaves that.
pub fn own_is_over()
    ensures { OwnIsOver }
{}

/// What a thread does over what its disks hold may be said in parts, one after the other.
pub fn over_goes_on()
    ensures { OverGoesOn }
{}

/// A thread keeps its bases, over whatever its disks hold.
pub fn over_keeps_bases()
    ensures { OverKeepsBases }
{}

/// At the start a thread has one base of a device at most.
pub fn start_is_once()
    ensures { StartIsOnce }
{}

/// Where base devices stand on nothing, no malloc device is an aio device.
pub fn memory_is_apart()
    ensures { MemoryIsApart }
{}

/// What a thread sees at the start with what its disks told is what it sees there without, with that told.
pub fn start_is_told()
    ensures { StartIsTold }
{}
