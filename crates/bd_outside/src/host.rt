//! Where files and disks come from.
use crate::disk::Disk;

/// Why a host has no answer.
#[derive(Clone, Copy, Debug, PartialEq, Eq)]
pub enum HostError {
    /// There is no such file: the host's count of absences rose in this call.
    Absent,
    /// The host failed: its count of faults rose in this call.
    Failed,
}

/// Files by name, and disks over them.
pub trait Host {
    ghost use Rattle.std.specs.Prelude.{◌≡◌, ◌<◌, ◌≤◌, ℕ, List, length, IfOk, OnErr, IsErrOf};
    ghost use Rattle.bd_outside.specs.File.{GivesPiece, IsAbsent};
    ghost use Rattle.bd_outside.specs.Host.{HostState, TellsTheSame, IsLater, FailsAt, Misses, Opens, Closes};
    ghost use Rattle.bd_outside.specs.Disk.{IsOpenedOver, HasWholeBlocks};

    /// A disk that is opened must be closed: it can't be dropped through this trait.
    type Disk: Disk;

    // its counts of faults and absences, what it tells of its files, and the disks that it opened
    ghost state: { Self → HostState };

    /// Reads a file from byte `at` on into the start of the buffer, and says how many bytes
    /// that gave; 0 for a buffer that isn't empty means the file's end. After these bytes the
    /// buffer may hold anything.
    ///
    /// Absent: there is no such file. Failed: the host failed. The buffer may hold anything after both.
    fn read_at(&mut self, name: &str, at: u64, to: &mut [u8]) -> Result<usize, HostError>
        ensures within { IfOk result (λ n. n ≤ length to.old) }
        ensures given { IfOk result (λ n. GivesPiece ((state self.old).told name.now) at n to.new) }
        ensures absent { IsErrOf result HostError.Absent → IsAbsent ((state self.old).told name.now) }

        ensures failed { IsErrOf result HostError.Failed → FailsAt (state self.old) (state self.new) name.now }
        ensures absence { IsErrOf result HostError.Absent → Misses (state self.old) (state self.new) name.now }
        ensures only_absence { (other : List ℕ) → (state self.old).absences other < (state self.new).absences other → IsErrOf result HostError.Absent }

        ensures later { IsLater (state self.old) (state self.new) }
        ensures same_openings { (state self.new).openings ≡ (state self.old).openings };

    /// Opens a file as a disk of blocks of that many bytes, at least 1: as many whole blocks as
    /// the file has. The disk's counts begin at 0. Each opened disk is an object of its own.
    ///
    /// Absent: there is no such file. Failed: the host failed.
    fn open_disk(&mut self, name: &str, block_size: u32) -> Result<Self::Disk, HostError>
        requires { 0 < block_size }
        ensures size { IfOk result (λ d. (Self.Disk.state d).block_size ≡ block_size) }
        ensures over { IfOk result (λ d. IsOpenedOver ((state self.old).told name.now) (Self.Disk.state d)) }
        ensures whole { IfOk result (λ d. HasWholeBlocks (Self.Disk.state d)) }
        ensures no_faults { IfOk result (λ d. (Self.Disk.state d).faults ≡ 0) }
        ensures no_flushes { IfOk result (λ d. (Self.Disk.state d).flushes ≡ 0) }
        ensures row { IfOk result (λ d. Opens (state self.old) (state self.new) name.now (Self.Disk.state d)) }
        ensures no_row { OnErr result ((state self.new).openings ≡ (state self.old).openings) }
        ensures absent { IsErrOf result HostError.Absent → IsAbsent ((state self.old).told name.now) }

        ensures failed { IsErrOf result HostError.Failed → FailsAt (state self.old) (state self.new) name.now }
        ensures absence { IsErrOf result HostError.Absent → Misses (state self.old) (state self.new) name.now }
        ensures only_absence { (other : List ℕ) → (state self.old).absences other < (state self.new).absences other → IsErrOf result HostError.Absent }

        ensures later { IsLater (state self.old) (state self.new) };

    /// Closes a disk by its file's name: its row has its content and counts from then on. It can't fail.
    fn close_disk(&mut self, name: &str, disk: Self::Disk)
        ensures row { Closes (state self.old) (state self.new) name.now (Self.Disk.state disk) }
        ensures fault_count { (state self.new).faults ≡ (state self.old).faults }
        ensures absence_count { (state self.new).absences ≡ (state self.old).absences }
        ensures same_files { TellsTheSame (state self.old) (state self.new) };
}
