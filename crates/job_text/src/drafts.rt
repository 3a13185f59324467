//! Adds to a job what its cards say.
ghost use Rattle.std.specs.Prelude.{◌≡◌, ◌+◌, ◌≤◌, ◌<◌, ◌&&◌, ◌++◌, ◌∷◌, [], Option, Some, None, IfOk, IfErr, IfSome, OnOk, OnErr, false, nat_eq, nat_lt, length, option_map};
ghost use Rattle.std.specs.List.{list_any, list_all};
ghost use Rattle.std.specs.Str.{bytes_eq};
ghost use Rattle.cov_base.specs.declared.limits.TheConstants.{MODULE_LIMIT, PHASE_LIMIT};
ghost use Rattle.names.specs.Lists.{added};
ghost use Rattle.job_text.specs.Meaning.{Present};
ghost use Rattle.job_text.specs.Meaning as adding;
ghost use Rattle.job_text.specs.Steps as machine;
ghost use Rattle.job_text.specs.TaskParts as parts;
ghost use Rattle.job_text.specs.declared.parts.Part.TheVariants as kind;

use crate::binding::are_met;
use crate::grammar::Grammar;
use crate::parts::{Draft, Part, SessionDraft};
use crate::refused::LineRefused;
use cov_base::{Name, NoMemory};
use listing_reader::ListingLines;
use module_area::Image;
use names::NameList;
use session_book::{Service, TaskCard};
use std::alloc::Global;

fn has_module(job: &Draft, name: &Name) -> bool
    ensures { result ≡ adding.has_module job.now name.now }
{
    job.names.modules.has(name)
}

fn all_clear(images: &[Image], base: u32, size: u32) -> bool
    ensures { result ≡ list_all (adding.is_clear base size) images.now }
{
    images.iter().all(|image| {
        u128::from(image.base.get()) + image.bytes.len() as u128 <= u128::from(base)
            || u64::from(base) + u64::from(size) <= u64::from(image.base.get())
    })
}

/// Whether a module of this name and place may come.
pub(crate) fn fits(job: &Draft, name: &Name, base: u32, size: u32) -> bool
    ensures { result ≡ adding.fits job.now name.now base size }
{
    !has_module(job, name) && all_clear(&job.images, base, size)
}

fn has_session(job: &Draft, name: &Name) -> bool
    ensures { result ≡ list_any (λ s. bytes_eq s.name name.now) job.now.sessions }
{
    job.names.sessions.has(name)
}

/// Whether a task has this name.
pub(crate) fn has_task(job: &Draft, name: &Name) -> bool
    ensures { result ≡ adding.has_task job.now name.now }
{
    job.names.tasks.has(name)
}

fn index_of(job: &Draft, name: &Name) -> Option<usize>
    ensures index { result ≡ adding.image_index job.now name.now }
    ensures within { IfSome result (λ i. i < length job.now.images) }
{
    job.names.modules.index_of(name)
}

fn has_index(used: &[u32], m: u32) -> bool
    ensures { result ≡ list_any (nat_eq m) used.now }
{
    used.iter().any(|u| m == *u)
}

fn is_same_controller(a: &Option<Name>, b: &Option<Name>) -> bool
    ensures { result ≡ adding.is_same_controller a.now b.now }
{
    match (a, b) {
        (Some(a), Some(b)) => *a == *b,
        _ => false,
    }
}

fn bars(session: &SessionDraft, phase: u32, by: &Option<Name>, m: u32) -> bool
    ensures { result ≡ adding.bars phase by.now m session.now }
{
    session.phase == phase && !is_same_controller(&session.by, by) && has_index(&session.modules, m)
}

fn is_barred(job: &Draft, phase: u32, by: &Option<Name>, m: u32) -> bool
    ensures { result ≡ list_any (adding.bars phase by.now m) job.now.sessions }
{
    job.sessions
        .iter()
        .any(|session| bars(session, phase, by, m))
}

fn this_phase(job: &Draft) -> u32
    requires { length job.now.phases ≤ PHASE_LIMIT }
    ensures { result ≡ adding.this_phase job.now }
{
    let count = job.phases.len() as u32;
    if count == 0 { 0 } else { count - 1 }
}

fn is_free(job: &Draft, by: &Option<Name>, used: &[u32], m: u32) -> bool
    requires { length job.now.phases ≤ PHASE_LIMIT }
    ensures { result ≡ adding.is_free job.now by.now used.now m }
{
    !has_index(used, m) && !is_barred(job, this_phase(job), by, m)
}

/// The modules behind these, with the one of this name; none where it may not come.
fn put_index(
    job: &Draft,
    by: &Option<Name>,
    mut used: Vec<u32>,
    name: &Name,
) -> Result<Option<Vec<u32>>, NoMemory>
    requires modules { length job.now.images ≤ MODULE_LIMIT }
    requires phases { length job.now.phases ≤ PHASE_LIMIT }
    ensures { IfOk result (λ o. machine.put_named job.now by.now used.items name.now ≡ option_map (λ v. v.items) o) }
{
    match index_of(job, name) {
        None => Ok(None),
        Some(at) => {
            let m = at as u32;
            if !is_free(job, by, &used, m) {
                return Ok(None);
            }
            used.push(m)?;
            Ok(Some(used))
        }
    }
}

fn indices(
    alloc: Global,
    job: &Draft,
    by: &Option<Name>,
    names: &[Name],
) -> Result<Option<Vec<u32>>, NoMemory>
    requires modules { length job.now.images ≤ MODULE_LIMIT }
    requires phases { length job.now.phases ≤ PHASE_LIMIT }
    ensures { IfOk result (λ o. adding.indices_on job.now by.now (Some []) names.now ≡ option_map (λ v. v.items) o) }
{
    let mut used = Vec::new(alloc);
    for name in names {
        match put_index(job, by, used, name)? {
            None => return Ok(None),
            Some(more) => used = more,
        }
    }
    Ok(Some(used))
}

/// Adds an item behind the others, and its name behind theirs; where memory is wanting they stay as they are.
fn put_named<T: Drop>(
    names: &mut NameList,
    items: &mut Vec<T>,
    name: Name,
    item: T,
) -> Result<(), NoMemory>
    ensures names { OnOk result (names.new ≡ added names.old name) }
    ensures items { OnOk result (items.new.items ≡ items.old.items ++ item ∷ []) }
    ensures names_kept { OnErr result (names.new ≡ names.old) }
    ensures items_kept { OnErr result (items.new.items ≡ items.old.items) }
{
    let count = items.len();
    items.push(item)?;
    if names.add(name).is_err() {
        items.truncate(count);
        return Err(NoMemory);
    }
    Ok(())
}

fn put_module(
    job: &mut Draft,
    image: Image,
    listing: Option<ListingLines>,
) -> Result<(), LineRefused>
    requires new { adding.has_module job.old image.name ≡ false }
    requires room { length job.old.images + 1 ≤ MODULE_LIMIT }
    requires phases { length job.old.phases ≤ PHASE_LIMIT }
    ensures value { IfOk result (λ _. job.new ≡ adding.with_module job.old image listing) }
    ensures err { IfErr result (parts.IsOut (Some (adding.with_module job.old image listing))) }
    ensures room { machine.HasRoom kind.Modules job.new }
{
    let name = image.name;
    job.listings.push(listing)?;
    put_named(&mut job.names.modules, &mut job.images, name, image)?;
    Ok(())
}

fn put_task(job: &mut Draft, mut task: TaskCard) -> Result<(), LineRefused>
    requires new { adding.has_task job.old task.name ≡ false }
    requires room { machine.HasRoom kind.Modules job.old }
    ensures value { IfOk result (λ _. job.new ≡ adding.with_task job.old task) }
    ensures err { IfErr result (parts.IsOut (Some (adding.with_task job.old task))) }
    ensures room { machine.HasRoom kind.Modules job.new }
{
    task.phase = this_phase(job);
    let name = task.name;
    put_named(&mut job.names.tasks, &mut job.tasks, name, task)?;
    Ok(())
}

fn are_below(services: &[Service], number: u8) -> bool
    ensures { result ≡ list_all (λ v. nat_lt v.number number) services.now }
{
    services.iter().all(|service| service.number < number)
}

fn has_services(grammar: Grammar) -> bool
    ensures { result ≡ adding.has_services grammar }
{
    match grammar {
        Grammar::Plain => false,
        Grammar::Services => true,
    }
}

/// Adds a service; bad where the job can't have one, or the number isn't above those of the others.
pub(crate) fn with_service(job: &mut Draft, service: Service) -> Result<(), LineRefused>
    requires room { machine.HasRoom kind.Modules job.old }
    ensures ok { IfOk result (λ _. adding.with_service job.old service ≡ Some job.new) }
    ensures err { IfErr result (parts.IsOut (adding.with_service job.old service)) }
    ensures room { machine.HasRoom kind.Modules job.new }
{
    if !has_services(job.grammar) || !are_below(&job.services, service.number) {
        return Err(LineRefused::Bad);
    }
    job.services.push(service)?;
    Ok(())
}

pub(crate) fn has_phase(job: &Draft, name: &Name) -> bool
    ensures { result ≡ list_any (λ n. bytes_eq n name.now) job.now.phases }
{
    job.names.phases.has(name)
}

pub(crate) fn put_phase(job: &mut Draft, name: Name) -> Result<(), NoMemory>
    requires new { list_any (λ n. bytes_eq n name) job.old.phases ≡ false }
    requires modules { length job.old.images ≤ MODULE_LIMIT }
    requires phases { length job.old.phases + 1 ≤ PHASE_LIMIT }
    ensures value { IfOk result (λ _. job.new ≡ record job.old { phases = job.old.phases ++ name ∷ [] }) }
    ensures room { machine.HasRoom kind.Modules job.new }
{
    put_named(&mut job.names.phases, &mut job.phases, name, name)?;
    Ok(())
}

/// Whether a session may have this controller.
fn may_have(job: &Draft, by: &Option<Name>) -> bool
    ensures { result ≡ adding.may_have job.now by.now }
{
    match by {
        None => true,
        Some(task) => !has_task(job, task),
    }
}

fn put_session(job: &mut Draft, session: SessionDraft) -> Result<(), LineRefused>
    requires new { list_any (λ s. bytes_eq s.name session.name) job.old.sessions ≡ false }
    requires room { machine.HasRoom kind.Modules job.old }
    ensures value { IfOk result (λ _. job.new ≡ adding.with_draft job.old session) }
    ensures err { IfErr result (parts.IsOut (Some (adding.with_draft job.old session))) }
    ensures room { machine.HasRoom kind.Modules job.new }
{
    let name = session.name;
    put_named(&mut job.names.sessions, &mut job.sessions, name, session)?;
    Ok(())
}

/// Adds a session; bad where a session has the name, it may not have the controller, or a module isn't free.
pub(crate) fn with_session(
    alloc: Global,
    job: &mut Draft,
    name: Name,
    by: Option<Name>,
    names: &[Name],
) -> Result<(), LineRefused>
    requires room { machine.HasRoom kind.Modules job.old }
    ensures ok { IfOk result (λ _. adding.with_new_session job.old name by names.now ≡ Some job.new) }
    ensures err { IfErr result (parts.IsOut (adding.with_new_session job.old name by names.now)) }
    ensures room { machine.HasRoom kind.Modules job.new }
{
    if has_session(job, &name) || !may_have(job, &by) {
        return Err(LineRefused::Bad);
    }
    match indices(alloc, job, &by, names)? {
        None => Err(LineRefused::Bad),
        Some(modules) => {
            let phase = this_phase(job);
            let session = SessionDraft {
                name,
                phase,
                modules,
                by,
            };
            put_session(job, session)
        }
    }
}

/// Adds the module that was open; bad where no module may come.
pub(crate) fn closed_module(part: Part, job: &mut Draft) -> Result<(), LineRefused>
    requires { machine.HasRoom part job.old }
    ensures ok { IfOk result (λ _. machine.closed_module part job.old ≡ Some job.new) }
    ensures err { IfErr result (parts.IsOut (machine.closed_module part job.old)) }
    ensures room { machine.HasRoom kind.Modules job.new }
{
    match part {
        Part::Modules => Ok(()),
        Part::Texts { image, left: 0 } => put_module(job, image, None),
        Part::Listed {
            image,
            left: 0,
            lines,
        } => put_module(job, image, Some(lines)),
        _ => Err(LineRefused::Bad),
    }
}

/// Adds the module that was open; bad where no service may come.
pub(crate) fn closed_service(part: Part, job: &mut Draft) -> Result<(), LineRefused>
    requires { machine.HasRoom part job.old }
    ensures ok { IfOk result (λ _. machine.closed_service part job.old ≡ Some job.new) }
    ensures err { IfErr result (parts.IsOut (machine.closed_service part job.old)) }
    ensures room { machine.HasRoom kind.Modules job.new }
{
    match part {
        Part::Services => Ok(()),
        _ => closed_module(part, job),
    }
}

/// Adds the task that was open; bad where no task may come.
pub(crate) fn closed_task(part: Part, job: &mut Draft) -> Result<(), LineRefused>
    requires { machine.HasRoom part job.old }
    ensures ok { IfOk result (λ _. machine.closed_task part job.old ≡ Some job.new) }
    ensures err { IfErr result (parts.IsOut (machine.closed_task part job.old)) }
    ensures room { machine.HasRoom kind.Modules job.new }
{
    match part {
        Part::Sessions => Ok(()),
        Part::Task(task) => put_task(job, task.task),
        _ => Err(LineRefused::Bad),
    }
}

/// Bad where a controller is missing.
fn met(job: &Draft) -> Result<(), LineRefused>
    ensures ok { IfOk result (λ _. machine.met_of Present job.now ≡ Some job.now) }
    ensures err { IfErr result (parts.IsOut (machine.met_of Present job.now)) }
{
    if are_met(job) {
        Ok(())
    } else {
        Err(LineRefused::Bad)
    }
}

/// Adds what was open; bad where neither a phase nor ENDJOB may come.
pub(crate) fn closed(part: Part, job: &mut Draft) -> Result<(), LineRefused>
    requires { machine.HasRoom part job.old }
    ensures ok { IfOk result (λ _. machine.closed Present part job.old ≡ Some job.new) }
    ensures err { IfErr result (parts.IsOut (machine.closed Present part job.old)) }
    ensures room { machine.HasRoom kind.Modules job.new }
{
    match part {
        Part::Sessions => met(job),
        Part::Task(task) => {
            put_task(job, task.task)?;
            met(job)
        }
        _ => closed_service(part, job),
    }
}
