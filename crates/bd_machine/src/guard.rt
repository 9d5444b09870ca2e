//! The guards of a step by name: what must hold for an entry to be allowed. Each name's number is
//! the one that a refused step answers with; `docs/MODEL.md` has them in one table.

/// An act that isn't built.
pub const UNBUILT: u32 = 0;
/// Every act: the thread exists, and stamp and thread are above those of the entry before.
pub const IN_ORDER: u32 = 1;
/// Put: the message's number is how many this thread has put to the receiver.
pub const NEXT_PUT: u32 = 2;
/// Put: the token is on this thread.
pub const TOKEN_HERE: u32 = 3;
/// Put: the token may go to that thread.
pub const MAY_GO: u32 = 4;
/// Took: it is the next message of that sender, and it brings this token.
pub const NEXT_MESSAGE: u32 = 5;
/// Reg: the registry gives this answer.
pub const REGISTRY_ANSWER: u32 = 6;
/// Reg: the event is asked for.
pub const EVENT_ASKED: u32 = 7;
/// Accept, Refuse: the script's next line asks for this submission and nothing decided it; an
/// Accept names the device of the handle, where that is open.
pub const LINE_ASKS: u32 = 8;
/// Accept: no cause refuses the submission.
pub const ADMITTED: u32 = 9;
/// Accept: the id is new, and there is room for one more open request.
pub const FRESH_ID: u32 = 10;
/// Refuse: this is the errno that the submission is refused with.
pub const REFUSAL_DUE: u32 = 11;
/// Inject: the thread's entry before took this decision from the registry, for this request and device.
pub const INJECTION_TAKEN: u32 = 12;
/// Pend: the request is here on its own thread, its last decision is to be kept, and it isn't yet.
pub const MAY_PEND: u32 = 13;
/// Let: the request is the first that waits here for the device, and no mark stops it here.
pub const FIRST_IN_LINE: u32 = 14;
/// Let: more than 0 is left of each limit that counts the request.
pub const WITHIN_LIMITS: u32 = 15;
/// Tick: a request waits here, and this number of timeslices may have passed.
pub const TICK_DUE: u32 = 16;
/// Cut: the request has a range, every Let and every decision, is here on its own thread, and is
/// neither cut nor aborted nor stopped by a mark.
pub const MAY_CUT: u32 = 17;
/// Cut: into as many pieces as boundaries and block map give.
pub const PIECE_COUNT: u32 = 18;
/// Apply: the piece is the first in its base's queue, which holds at most depth pieces, at the
/// base's home.
pub const HEAD_OF_QUEUE: u32 = 19;
/// Apply: a fault comes from a disk alone.
pub const END_ALLOWED: u32 = 20;
/// NoMem: the piece is the last in its base's queue, which holds depth others, at the base's home.
pub const QUEUE_FULL: u32 = 21;
/// Hold: the request's pieces came back, and it is held as long as its delays say.
pub const MAY_HOLD: u32 = 22;
/// Release: its moment has come, and since it was held no removal mark of a device below was set, and no freeze
/// mark of one set hard or made hard.
pub const HOLD_OVER: u32 = 23;
/// Abort: the request is here, and not all of it is sent.
pub const MAY_ABORT: u32 = 24;
/// Abort: the mark is set here and stops the request, or the abort that names it is open.
pub const ABORT_CAUSE: u32 = 25;
/// Complete: the request is here on its own thread, and so is every piece of it; no walk of it is
/// under way.
pub const ALL_PIECES_BACK: u32 = 26;
/// Complete: this is the status that its pieces give.
pub const STATUS_ALLOWED: u32 = 27;
/// Complete: data is shown exactly for a read with success, and it is the data read.
pub const SHOWN_DATA: u32 = 28;
/// Visit: the walk came here, and this is the least thread that it has left.
pub const NEXT_VISIT: u32 = 29;
/// Visit: for a drain, no open request of the thread but resets has the device below.
pub const DRAINED: u32 = 30;
/// Destruct: the device may be destructed, here and now.
pub const MAY_DESTRUCT: u32 = 31;
/// Destruct: the digest is that of the content.
pub const CONTENT_DIGEST: u32 = 32;
/// Script: it is the thread's next line, and no Shutdown came.
pub const NEXT_LINE: u32 = 33;
/// Script: this is the outcome of the line.
pub const OUTCOME_DUE: u32 = 34;
/// Shutdown: nothing is under way on any thread.
pub const AT_REST: u32 = 35;
/// Shutdown: every script is at its end or waits.
pub const SCRIPTS_BLOCKED: u32 = 36;
/// Grow: this is the device's home, which was told to let the content grow to this number of blocks.
pub const GROW_DUE: u32 = 37;
/// Grace: the thread's entry before set the soft mark of this walk, and its drain time lasts until then.
pub const GRACE_DUE: u32 = 38;
/// Due: the soft mark of this walk is set here, and its moment has come.
pub const MARK_DUE: u32 = 39;
