//! A job that a source gives, made ready for a command.
ghost use Rattle.std.specs.Prelude.{IfOk, IfErr};
ghost use Rattle.job_input.specs.Meaning.{source_change};
ghost use Rattle.job_input.specs.Inputs.{IsInput};
ghost use Rattle.job_input.specs.Tables.{IsReadyJob};
ghost use Rattle.report_text.specs.Conditions.{HasFewLines};
ghost use Rattle.job_answers.specs.Meaning.{HasAsked};
ghost use Rattle.job_answers.specs.declared.asked.Asked.{Asked as AskedOf};
ghost use Rattle.job_answers.specs.Answers.{IsStopped, StopsInput, StopsJob};
ghost use Rattle.job_answers.specs.Ready.{IsMadeReady};

use crate::asked::{Asked, asked_session};
use brk_table::Tables;
use cov_base::SessNo;
use cov_outside::Source;
use job_input::{Form, Input, job_of_source, tables_of};
use refusals::{Refusal, input_refusal, tables_refusal};
use session_book::Job;
use std::alloc::Global;

/// A job that came, with what stands behind it, whose listings match, and their tables.
#[derive(Drop)]
pub struct Ready {
    pub input: Input,
    pub tables: Tables,
    /// The session that is asked for by its name; 0 where none is.
    pub session: SessNo,
}

/// Reads the source to its end, and the job of its lines; and what stands behind it.
fn read_job<S: Source>(alloc: Global, source: &mut S, form: Form) -> Result<Input, Refusal>
    ensures input { IfOk result (IsInput form (source_change S.left S.faults source.old source.new)) }
    ensures stopped { IfErr result (StopsInput form (source_change S.left S.faults source.old source.new)) }
{
    match job_of_source(alloc, source, form) {
        Ok(input) => Ok(input),
        Err(fault) => Err(input_refusal(fault)),
    }
}

/// Makes the tables of a job that was read.
fn read_tables(alloc: Global, job: &Job) -> Result<Tables, Refusal>
    requires { HasFewLines job.now }
    ensures ready { IfOk result (IsReadyJob job.now) }
    ensures stopped { (asked : AskedOf) → HasAsked asked job.now → IfErr result (StopsJob asked job.now) }
{
    match tables_of(alloc, job) {
        Ok(tables) => Ok(tables),
        Err(fault) => Err(tables_refusal(fault)),
    }
}

/// Reads the source to its end, the job of its lines, the number of the session that is asked for by its name, and the
/// tables of the job's listings; or the first refusal of these, in this order: 5 or 4 of the source, 2 or 4 of the job, 13 or 14
/// of its sessions, 12, 4, 8 or 3 of its listings; and 7 where memory is wanting. What stands behind the job is the caller's
/// where the form lets more stand there; else nothing does.
pub fn make_ready<S: Source>(
    alloc: Global,
    source: &mut S,
    form: Form,
    asked: &Asked,
) -> Result<Ready, Refusal>
    ensures ready { IfOk result (IsMadeReady form asked.now (source_change S.left S.faults source.old source.new)) }
    ensures stopped { IfErr result (IsStopped form asked.now (source_change S.left S.faults source.old source.new)) }
{
    let input = read_job(alloc, source, form)?;
    let session = asked_session(&input.job, asked)?;
    let tables = read_tables(alloc, &input.job)?;
    Ok(Ready {
        input,
        tables,
        session,
    })
}
