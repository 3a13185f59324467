//! Laws of the texts that `cover` answers with. Nothing calls what stands here, and it does nothing: its contract is the
//! theorem, which is said of the clause of `cover` alone and is proved because the contract of a public function is.
ghost use Rattle.round_trip.specs.Laws.{VerifiesWritten, ShowsWritten, ShowsRun, ShowsEachRun, NeverCrosses};

/// Of a job's bytes, the last line with its LF, behind which stands what `marks` has of one of its sessions:
/// - with what `prove` has of the session behind that, `verify` verifies them, so that it answers nothing else but want of
///   memory where the source fails nowhere;
/// - `show` shows them, and all that it writes but the first line and the last is the session's part of the report on the run
///   that the marks are of; where the session has no controller it is so of every report on the job.
///
/// Together they have at most 16,777,216 bytes. What is said of `marks`, `show` and `run` holds with `services` before the words
/// of all three, too.
pub fn texts_fit_by_law()
    ensures verified { VerifiesWritten }
    ensures answered { ShowsWritten }
    ensures shown { ShowsRun }
    ensures whole { ShowsEachRun }
{}

/// Of a report of `run` on tasks that race, the clause says more than its bounds: an example. While one task opens and closes
/// session 1 and then session 2, another executes LA, AR and BR once each. Then no report has AR in session 1 and LA in session 2,
/// although each lies between its bounds: no order of the tasks' steps gives both.
pub fn raced_by_law()
    ensures crossed { NeverCrosses }
{}
