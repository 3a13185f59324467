//! What a command asks of a job's sessions.
ghost use Rattle.std.specs.Prelude.{◌≡◌, ◌<◌, ◌≤◌, ◌+◌, Some, None, length, option_map, IfSome, IfOk, IfErr};
ghost use Rattle.cov_base.specs.declared.numbers.SessNo.{SessNo as Number};
ghost use Rattle.job_answers.specs.declared.asked.Asked.TheVariants.{AllWhole, WithSession};
ghost use Rattle.job_answers.specs.Answers.{StopsJob};
ghost use Rattle.job_answers.specs.Meaning.{HasAsked, first_controlled, session_number};
ghost use Rattle.refusals.specs.Meaning.{refusal, controlled_line};
ghost use Rattle.job_answers.specs.Asked.{HasSession, IsSessionOf};
ghost use Rattle.session_book.specs.Meaning.{session_of};

use cov_base::{Name, SessNo};
use refusals::{Reason, Refusal, Status, controlled_line, no_session_line};
use session_book::Job;

/// A session that a command asks for by its name.
#[derive(Clone, Copy)]
pub struct Wanted {
    pub name: Name,
    /// It must have no controller.
    pub whole: bool,
}

/// What a command asks of a job's sessions.
#[derive(Clone, Copy)]
pub enum Asked {
    /// Nothing.
    AnyJob,
    /// That one of them has the name.
    WithSession(Wanted),
    /// That none of them has a controller.
    AllWhole,
}

/// The number of the session of the name; none exactly where no session of the job has it.
fn find_session(job: &Job, name: &Name) -> Option<SessNo>
    ensures value { option_map (λ (s : Number). s.0) result ≡ session_number job.now name.now }
    ensures from { IfSome result (λ s. 0 < s.0) }
    ensures to { IfSome result (λ s. s.0 ≤ length job.now.sessions) }
{
    job.session_named(name)
}

/// The number of the job's first session that has a controller; none exactly where none has one.
fn first_controlled(job: &Job) -> Option<SessNo>
    ensures value { option_map (λ (s : Number). s.0) result ≡ first_controlled job.now }
    ensures from { IfSome result (λ s. 0 < s.0) }
    ensures to { IfSome result (λ s. s.0 ≤ length job.now.sessions) }
{
    for i in 0..job.sessions.len() {
        if job.sessions[i].by.is_some() {
            return Some(SessNo(i as u32 + 1));
        }
    }
    None
}

/// Session s of the job has a controller, where none may.
fn controlled(job: &Job, s: SessNo) -> Refusal
    requires from { 0 < s.0 }
    requires to { s.0 ≤ length job.now.sessions }
    ensures { result ≡ refusal 14 (controlled_line (session_of job.now s.0).name) }
{
    Refusal {
        reason: Reason::Controlled,
        line: controlled_line(&job.session(s).name),
    }
}

/// The number of the session of the name; or that the job has none, or one with a controller where it must be whole.
fn named_session(job: &Job, wanted: &Wanted) -> Result<SessNo, Refusal>
    ensures session { IfOk result (λ s. IsSessionOf job.now wanted.now.name s.0) }
    ensures asked { IfOk result (λ _. HasAsked (WithSession wanted.now) job.now) }
    ensures stopped { IfErr result (StopsJob (WithSession wanted.now) job.now) }
{
    let Some(session) = find_session(job, &wanted.name) else {
        return Err(Refusal {
            reason: Reason::NoSession,
            line: no_session_line(&wanted.name),
        });
    };
    if wanted.whole && job.session(session).by.is_some() {
        return Err(controlled(job, session));
    }
    Ok(session)
}

/// That no session of the job has a controller; or the refusal of the first that has one.
fn whole_sessions(job: &Job) -> Result<(), Refusal>
    ensures asked { IfOk result (λ _. HasAsked AllWhole job.now) }
    ensures stopped { IfErr result (StopsJob AllWhole job.now) }
{
    match first_controlled(job) {
        Some(session) => Err(controlled(job, session)),
        None => Ok(()),
    }
}

/// The number of the session that is asked for by its name, and 0 where none is; or why the job's sessions are not as is
/// asked: 13 where none has the name, 14 where one has a controller that may have none.
pub fn asked_session(job: &Job, asked: &Asked) -> Result<SessNo, Refusal>
    ensures session { IfOk result (λ s. HasSession asked.now job.now s.0) }
    ensures asked { IfOk result (λ _. HasAsked asked.now job.now) }
    ensures stopped { IfErr result (StopsJob asked.now job.now) }
{
    match asked {
        Asked::AnyJob => Ok(SessNo(0)),
        Asked::WithSession(wanted) => named_session(job, wanted),
        Asked::AllWhole => {
            whole_sessions(job)?;
            Ok(SessNo(0))
        }
    }
}
