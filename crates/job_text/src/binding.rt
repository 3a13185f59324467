//! The tasks that control sessions.
ghost use Rattle.std.specs.Prelude.{◌≡◌, ◌<◌, ◌≤◌, IfOk, IfSome, length, map, option_and_then};
ghost use Rattle.cov_base.specs.declared.limits.TheConstants.{TASK_LIMIT};
ghost use Rattle.session_book.specs.JobView.{IsJob};
ghost use Rattle.job_text.specs.Names.{task_names};
ghost use Rattle.job_text.specs.Meaning as drafts;

use crate::parts::{Draft, SessionDraft};
use cov_base::{Name, NoMemory};
use module_area::Images;
use names::NameList;
use session_book::{Job, JobCards, Session, TaskCard};
use std::alloc::Global;

/// The task of the phase that has this name, by the names of the tasks.
fn controller_of(names: &NameList, tasks: &[TaskCard], phase: u32, name: &Name) -> Option<usize>
    requires { names.now ≡ task_names tasks.now }
    ensures index { result ≡ drafts.controller_named tasks.now phase name.now }
    ensures within { IfSome result (λ i. i < length tasks.now) }
{
    let at = names.index_of(name)?;
    let task = &tasks[at];
    if task.phase == phase { Some(at) } else { None }
}

fn is_met(job: &Draft, session: &SessionDraft) -> bool
    ensures { result ≡ drafts.is_met job.now.tasks session.now }
{
    match session.by {
        None => true,
        Some(name) => {
            controller_of(&job.names.tasks, &job.tasks, session.phase, &name).is_some()
        }
    }
}

/// Whether no controller is missing.
pub(crate) fn are_met(job: &Draft) -> bool
    ensures { result ≡ drafts.are_met drafts.Present job.now }
{
    job.sessions.iter().all(|session| is_met(job, session))
}

fn index_of(names: &NameList, tasks: &[TaskCard], phase: u32, by: Option<Name>) -> Option<u32>
    requires few { length tasks.now ≤ TASK_LIMIT }
    requires names { names.now ≡ task_names tasks.now }
    ensures { result ≡ option_and_then (drafts.controller_named tasks.now phase) by }
{
    let name = by?;
    let at = controller_of(names, tasks, phase, &name)?;
    Some(at as u32)
}

/// The sessions, each with its controller's index among the tasks.
fn bound_sessions(
    alloc: Global,
    names: &NameList,
    tasks: &[TaskCard],
    sessions: Vec<SessionDraft>,
) -> Result<Vec<Session>, NoMemory>
    requires few { length tasks.now ≤ TASK_LIMIT }
    requires names { names.now ≡ task_names tasks.now }
    ensures { IfOk result (λ v. v.items ≡ map (drafts.bound_session tasks.now) sessions.items) }
{
    let mut bound = Vec::new(alloc);
    for session in sessions {
        let SessionDraft {
            name,
            phase,
            modules,
            by,
        } = session;
        let by = index_of(names, tasks, phase, by);
        bound.push(Session {
            name,
            phase,
            modules,
            by,
        })?;
    }
    Ok(bound)
}

/// The job that was read, with each controller's index.
pub(crate) fn bound_job(alloc: Global, job: Draft) -> Result<Job, NoMemory>
    requires { IsJob (drafts.bound job) }
    ensures { IfOk result (λ whole. whole ≡ drafts.bound job) }
{
    let Draft {
        grammar: _,
        images,
        listings,
        services,
        phases,
        sessions,
        tasks,
        names,
    } = job;
    let sessions = bound_sessions(alloc, &names.tasks, &tasks, sessions)?;
    let cards = JobCards {
        images: Images(images),
        listings,
        services,
        phases,
        sessions,
        tasks,
    };
    Ok(Job::new(cards))
}
