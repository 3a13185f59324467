//! One instruction of a task.
ghost use Rattle.std.specs.Prelude.{◌≡◌, ◌+◌, IfOk, IfErr, IfSome, None, Some, false};
ghost use Rattle.cov_base.specs.Meaning.{half_at};
ghost use Rattle.module_area.specs.Meaning.{is_place};
ghost use Rattle.s370_exec.specs.Meaning.{first_tests};
ghost use Rattle.space_map.specs.Space.{memory_of_space};
ghost use Rattle.task_run.specs.Sights.{BeginsAt, IsPlaced, IsKnown};
ghost use Rattle.task_run.specs.Position.{IsKeptOf};
ghost use Rattle.task_run.specs.Steps.{CanStep, IsFetched, IsShown, StepsAs, StepsTold, StepsOn, GoesOn, GoesOnTold};

use crate::bench::Bench;
use crate::observer::{Known, Observer, Sight};
use brk_table::{Kept, Tables};
use cov_base::{Addr, PlaceNo};
use s370_branch::{go_on_condition, go_on_count};
use s370_decode::{Code, Decoded};
use s370_exec::{
    Told, execute, execute_frequent, fetch_first, fetch_rest, fetch_subject, is_execute, next_of,
    subject_address,
};
use s370_state::{Ending, Next};
use space_map::TaskSpace;

/// The place that begins at the address, if one does, and the first halfword there: at a place the original, which the tables
/// have. Code 6 exactly at an odd address, else code 5 exactly where the halfword is inaccessible.
fn first_at(
    tables: &Tables,
    space: &TaskSpace<'_>,
    at: Addr,
) -> Result<(Option<PlaceNo>, u16), Ending>
    requires shown { IsShown (memory_of_space space.now) tables.now }
    ensures refused { IfErr result (λ e. first_tests (memory_of_space space.now) at ≡ Some e) }
    ensures passed { IfOk result (λ _. first_tests (memory_of_space space.now) at ≡ None) }
    ensures half { IfOk result (λ f. f.1 ≡ half_at (memory_of_space space.now) space.now.bytes at) }
    ensures placed { IfOk result (λ f. IsPlaced tables.now.places at f.0) }
{
    if let Some(place) = tables.at(at) {
        return Ok((Some(place), tables.place(place).original));
    }
    match fetch_first(space, at) {
        Ok(half) => Ok((None, half)),
        Err(e) => Err(e),
    }
}

/// Executes the subject of an EX that was begun, and has its visit noted. It has no visit at an odd address, code 6, nor where its
/// first halfword is inaccessible, code 5. It isn't begun where it is itself EX, code 3, nor where a later halfword is refused,
/// code 5 or Touched.
#[inline(never)]
fn step_subject<O: Observer>(
    observer: &O,
    pass: &mut O::Pass,
    tables: &Tables,
    bench: &mut Bench<'_>,
    done: u32,
    ex: &Code,
) -> Next
    requires can { CanStep O.IsReady O.IsTied observer.now tables.now pass.old bench.old done 1 }
    ensures can { CanStep O.IsReady O.IsTied observer.now tables.now pass.new bench.new (done + 1) 0 }
    ensures steps { StepsOn O.Observer ex.now observer.now tables.now pass.old bench.old done pass.new bench.new result }
{
    let at = subject_address(&bench.cpu, ex);
    let (place, half) = match first_at(tables, &bench.space, at) {
        Ok(first) => first,
        Err(e) => return Next::Ended(e),
    };
    let sight = Sight {
        done,
        at,
        place,
        subject: true,
    };
    let subject = match fetch_subject(&bench.cpu, &bench.space, ex, at, half) {
        Ok(code) => code,
        Err(e) => {
            observer.refused(pass, tables, sight);
            return Next::Ended(e);
        }
    };
    observer.begun(pass, tables, &bench.cpu, &subject, sight);
    observer.called(pass, tables, &mut bench.control, done, subject.first_half());
    execute(
        &mut bench.cpu,
        &mut bench.space,
        &mut bench.io,
        &Decoded::of(subject),
        Some(ex.at),
    )
}

/// The same in the place where it is called, so that the room of its answer is not cleared where there is no EX.
#[inline(always)]
fn step_subject_here<O: Observer>(
    observer: &O,
    pass: &mut O::Pass,
    tables: &Tables,
    bench: &mut Bench<'_>,
    done: u32,
    ex: &Code,
) -> Next
    requires can { CanStep O.IsReady O.IsTied observer.now tables.now pass.old bench.old done 1 }
    ensures can { CanStep O.IsReady O.IsTied observer.now tables.now pass.new bench.new (done + 1) 0 }
    ensures steps { StepsOn O.Observer ex.now observer.now tables.now pass.old bench.old done pass.new bench.new result }
{
    step_subject(observer, pass, tables, bench, done, ex)
}

/// Carries on an instruction that was fetched whole and shown to the observer: EX executes its subject; else a call is
/// answered, and the instruction is executed.
#[inline(always)]
fn carry_on<O: Observer>(
    observer: &O,
    pass: &mut O::Pass,
    tables: &Tables,
    bench: &mut Bench<'_>,
    done: u32,
    it: &Decoded,
) -> Next
    requires fetched { IsFetched bench.old it.now.code }
    requires can { CanStep O.IsReady O.IsTied observer.now tables.now pass.old bench.old done 1 }
    ensures can { CanStep O.IsReady O.IsTied observer.now tables.now pass.new bench.new (done + 1) 0 }
    ensures goes { GoesOn O.Observer observer.now tables.now pass.old bench.old done pass.new bench.new result }
{
    let half = it.code.first_half();
    if is_execute(half) {
        return step_subject_here(observer, pass, tables, bench, done, &it.code);
    }
    observer.called(pass, tables, &mut bench.control, done, half);
    execute(&mut bench.cpu, &mut bench.space, &mut bench.io, it, None)
}

/// The same in a call of its own, out of the loop over places. Where the task has ended `end` tells how.
#[inline(never)]
fn carry_on_apart<O: Observer>(
    observer: &O,
    pass: &mut O::Pass,
    tables: &Tables,
    bench: &mut Bench<'_>,
    done: u32,
    it: &Decoded,
    end: &mut Ending,
) -> Told
    requires fetched { IsFetched bench.old it.now.code }
    requires can { CanStep O.IsReady O.IsTied observer.now tables.now pass.old bench.old done 1 }
    ensures can { CanStep O.IsReady O.IsTied observer.now tables.now pass.new bench.new (done + 1) 0 }
    ensures goes { GoesOnTold O.Observer observer.now tables.now pass.old bench.old done pass.new bench.new result end.new }
{
    match carry_on(observer, pass, tables, bench, done, it) {
        Next::On => Told::GoesOn,
        Next::Ended(e) => {
            *end = e;
            Told::HasEnded
        }
    }
}

/// Carries on an instruction that is kept and was shown to the observer: a frequent one is no EX and no call. Where the task has
/// ended `end` tells how.
#[inline(always)]
fn carry_on_kept<O: Observer, Caller>(
    observer: &O,
    pass: &mut O::Pass,
    tables: &Tables,
    bench: &mut Bench<'_>,
    done: u32,
    kept: &Kept,
    end: &mut Ending,
) -> Told
    requires fetched { IsFetched bench.old kept.now.decoded.code }
    requires can { CanStep O.IsReady O.IsTied observer.now tables.now pass.old bench.old done 1 }
    ensures can { CanStep O.IsReady O.IsTied observer.now tables.now pass.new bench.new (done + 1) 0 }
    ensures goes { GoesOnTold O.Observer observer.now tables.now pass.old bench.old done pass.new bench.new result end.new }
{
    match execute_frequent::<_, Caller>(
        &mut bench.cpu,
        &mut bench.space,
        &mut bench.io,
        &kept.decoded,
        end,
    ) {
        Some(told) => told,
        None => carry_on_apart(observer, pass, tables, bench, done, &kept.decoded, end),
    }
}

/// The same by what the observer has found out of it.
#[inline(always)]
fn carry_on_known<O: Observer, Caller>(
    observer: &O,
    pass: &mut O::Pass,
    tables: &Tables,
    bench: &mut Bench<'_>,
    done: u32,
    kept: &Kept,
    known: Known,
    end: &mut Ending,
) -> Told
    requires fetched { IsFetched bench.old kept.now.decoded.code }
    requires can { CanStep O.IsReady O.IsTied observer.now tables.now pass.old bench.old done 1 }
    requires known { IsKnown known kept.now.decoded.code bench.old.cpu }
    ensures can { CanStep O.IsReady O.IsTied observer.now tables.now pass.new bench.new (done + 1) 0 }
    ensures goes { GoesOnTold O.Observer observer.now tables.now pass.old bench.old done pass.new bench.new result end.new }
{
    match known {
        Known::Nothing => carry_on_kept::<O, Caller>(
            observer, pass, tables, bench, done, kept, end,
        ),
        Known::Condition(went) => {
            go_on_condition(&mut bench.cpu, &kept.decoded, kept.decoded.next, went);
            Told::GoesOn
        }
        Known::Count(left) => {
            go_on_count(&mut bench.cpu, &kept.decoded, kept.decoded.next, left);
            Told::GoesOn
        }
    }
}

/// One instruction where no place begins. Out of line, so that the loop over places stays short.
#[inline(never)]
fn step_far<O: Observer>(
    observer: &O,
    pass: &mut O::Pass,
    tables: &Tables,
    bench: &mut Bench<'_>,
    done: u32,
    end: &mut Ending,
) -> Told
    requires can { CanStep O.IsReady O.IsTied observer.now tables.now pass.old bench.old done 0 }
    requires no_place { is_place tables.now.places bench.old.cpu.ia ≡ false }
    ensures can { CanStep O.IsReady O.IsTied observer.now tables.now pass.new bench.new (done + 1) 0 }
    ensures steps { StepsTold O.Observer observer.now tables.now pass.old bench.old done pass.new bench.new result end.new }
{
    let at = bench.cpu.at();
    let half = match fetch_first(&bench.space, at) {
        Ok(half) => half,
        Err(e) => {
            *end = e;
            return Told::HasEnded;
        }
    };
    let sight = Sight {
        done,
        at,
        place: None,
        subject: false,
    };
    let code = match fetch_rest(&bench.space, at, half) {
        Ok(code) => code,
        Err(e) => {
            observer.refused(pass, tables, sight);
            *end = e;
            return Told::HasEnded;
        }
    };
    observer.begun(pass, tables, &bench.cpu, &code, sight);
    carry_on_apart(observer, pass, tables, bench, done, &Decoded::of(code), end)
}

/// One instruction where the place begins. The instruction is read where it is kept: a copy would wait for the parts that were
/// just written.
#[inline(always)]
fn step_placed<O: Observer, Caller>(
    observer: &O,
    pass: &mut O::Pass,
    tables: &Tables,
    bench: &mut Bench<'_>,
    done: u32,
    place: PlaceNo,
    kept: &Kept,
    end: &mut Ending,
) -> Told
    requires can { CanStep O.IsReady O.IsTied observer.now tables.now pass.old bench.old done 0 }
    requires placed { BeginsAt tables.now.places bench.old.cpu.ia place.0 }
    requires kept { IsKeptOf tables.now place.0 kept.now }
    ensures can { CanStep O.IsReady O.IsTied observer.now tables.now pass.new bench.new (done + 1) 0 }
    ensures steps { StepsTold O.Observer observer.now tables.now pass.old bench.old done pass.new bench.new result end.new }
{
    let sight = Sight {
        done,
        at: bench.cpu.at(),
        place: Some(place),
        subject: false,
    };
    let known = observer.begun_kept(pass, tables, &bench.cpu, kept, sight);
    carry_on_known::<O, Caller>(observer, pass, tables, bench, done, kept, known, end)
}

/// One instruction, with the place that begins there, if one does, and then that place's, as the tables keep it. Where the task
/// has ended `end` tells how.
#[inline(always)]
fn step_told<O: Observer, Caller>(
    observer: &O,
    pass: &mut O::Pass,
    tables: &Tables,
    bench: &mut Bench<'_>,
    done: u32,
    place: Option<PlaceNo>,
    kept: &Kept,
    end: &mut Ending,
) -> Told
    requires can { CanStep O.IsReady O.IsTied observer.now tables.now pass.old bench.old done 0 }
    requires placed { IsPlaced tables.now.places bench.old.cpu.ia place }
    requires kept { IfSome place (λ p. IsKeptOf tables.now p.0 kept.now) }
    ensures can { CanStep O.IsReady O.IsTied observer.now tables.now pass.new bench.new (done + 1) 0 }
    ensures steps { StepsTold O.Observer observer.now tables.now pass.old bench.old done pass.new bench.new result end.new }
{
    match place {
        Some(place) => step_placed::<O, Caller>(
            observer, pass, tables, bench, done, place, kept, end,
        ),
        None => step_far(observer, pass, tables, bench, done, end),
    }
}

/// One instruction of the task, which has done so many before, and of which neither budget nor return address is tested, with
/// the place that begins there, if one does: it ends or goes on as over modules that were never planted, and the observer is
/// shown its visits, and then its supervisor call, before what the instruction does. `kept` is the place's instruction; where
/// there is no place it is not read. `end` is room for an ending. `Caller` is that of `execute_frequent`.
#[inline(always)]
pub fn step<O: Observer, Caller>(
    observer: &O,
    pass: &mut O::Pass,
    tables: &Tables,
    bench: &mut Bench<'_>,
    done: u32,
    place: Option<PlaceNo>,
    kept: &Kept,
    end: &mut Ending,
) -> Next
    requires can { CanStep O.IsReady O.IsTied observer.now tables.now pass.old bench.old done 0 }
    requires placed { IsPlaced tables.now.places bench.old.cpu.ia place }
    requires kept { IfSome place (λ p. IsKeptOf tables.now p.0 kept.now) }
    ensures can { CanStep O.IsReady O.IsTied observer.now tables.now pass.new bench.new (done + 1) 0 }
    ensures steps { StepsAs O.Makes O.Answers observer.now tables.now pass.old bench.old done pass.new bench.new result }
{
    let told = step_told::<O, Caller>(observer, pass, tables, bench, done, place, kept, end);
    next_of(told, end)
}
