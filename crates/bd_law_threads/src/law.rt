//! The laws of courses. Each function says one of them: its body is empty, and its clause is the law,
//! which the definitions alone prove.
ghost use Rattle.bd_law_threads.specs.Ends.{BasesEndAsSeen, CoursesAreCompleteRun, CoursesEndAsSeen, CoursesHoldAsSeen, CoursesServeAsSeen};
ghost use Rattle.bd_law_threads.specs.Steps.{ActsOn, AnyStamp, Arrives, Begins, CatchesUp, GoesOut, Meets, ShutsDown};

/// A thread begins with an empty course.
pub fn course_begins()
    ensures { Begins }
{}

/// Posts that come out of a thread's ring, with stamps that its log meets, leave it on its course.
pub fn arrivals_are_met()
    ensures { Arrives }
{}

/// So does a stamp that its log meets.
pub fn stamps_are_met()
    ensures { Meets }
{}

/// What a thread does by the local rules, with its log's next stamps, is its course's going on.
pub fn acts_go_on()
    ensures { ActsOn }
{}

/// The stamps that a turn gives its entries by itself don't matter.
pub fn any_stamp_will_do()
    ensures { AnyStamp }
{}

/// Messages that go from a thread's queues into rings, with its last stamp, leave it on its course.
pub fn departures_are_stamped()
    ensures { GoesOut }
{}

/// A registry that follows rows of other threads leaves a thread what it sees, and on its course.
pub fn others_are_followed()
    ensures { CatchesUp }
{}

/// A Shutdown above a thread's stamps begins the second phase of its course.
pub fn shutdown_begins_a_phase()
    ensures { ShutsDown }
{}

/// The courses of all threads, after a Shutdown at rest, are one complete run when their logs are merged.
pub fn courses_are_complete_run()
    ensures { CoursesAreCompleteRun }
{}

/// The state that their merge leaves has for each thread what the thread saw at its end.
pub fn courses_end_as_seen()
    ensures { CoursesEndAsSeen }
{}

/// So what it has of a base device at the device's home, with its content, is what that thread saw of it.
pub fn bases_end_as_seen()
    ensures { BasesEndAsSeen }
{}

/// The pieces that a thread's base devices served in it are those of the thread's course.
pub fn courses_serve_as_seen()
    ensures { CoursesServeAsSeen }
{}

/// The requests that a thread held in it are those of the thread's course.
pub fn courses_hold_as_seen()
    ensures { CoursesHoldAsSeen }
{}
