//! Laws of what a thread counted, and what it sent.

ghost use Rattle.roam_workers.specs.Agreeing.{AnswersAgree, TicksAgree};
ghost use Rattle.roam_workers.specs.Work.{WorkIsCounted, WorkIsSent};

/// States that each of a thread's own counts is the sum of the increments of all that it did, above what it was at
/// the start.
pub fn work_is_counted()
    ensures { WorkIsCounted }
{}

/// States that the packets that a thread puts into its outbox are those of the answers that it was given, in order,
/// each once.
pub fn work_is_sent()
    ensures { WorkIsSent }
{}

/// States that what a thread counts and tells of a call that is recorded, and the packets that it puts out for it,
/// agree.
pub fn calls_agree()
    ensures answers { AnswersAgree }
    ensures ticks { TicksAgree }
{}
