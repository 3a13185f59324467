//! The program over any source, sink and areas.
ghost use Rattle.std.specs.Prelude.{◌<◌, ◌^◌};
ghost use Rattle.job_input.specs.Words.{HasFewTasks};
ghost use Rattle.coverage_commands.specs.Words.{without_threads};
ghost use Rattle.coverage_commands.specs.Meaning.{Serves};
ghost use Rattle.coverage_commands.specs.Calls.{Answered, AnsweredAlone, ServedAlone};

use crate::combine::answer_combine;
use crate::count::answer_count;
use crate::early::answer_early;
use crate::ends::answer_ends;
use crate::exits::answer_exits;
use crate::marks::answer_marks;
use crate::prove::answer_prove;
use crate::replay::answer_replay;
use crate::run::answer_run;
use crate::show::answer_show;
use crate::table::answer_table;
use crate::trial::answer_trial;
use crate::verify::answer_verify;
use cov_outside::{Gate, Sink, Source};
use job_input::{Command, command_of};
use module_area::Areas;
use refusals::{Reason, Status, USAGE, told};
use run_reports::Host;
use std::alloc::Global;
use std::sync::Wait;
use std::thread::Threads;

/// Answers the commands that need no threads; all others are usage.
fn answer_one<S: Source, K: Sink>(
    alloc: Global,
    command: Command,
    source: &mut S,
    sink: &mut K,
) -> Status
    ensures { AnsweredAlone S.Source K.Sink (without_threads command) source.old source.new sink.old sink.new result }
{
    match command {
        Command::Table(grammar) => answer_table(alloc, grammar, source, sink),
        Command::Ends(grammar) => answer_ends(alloc, grammar, source, sink),
        Command::Replay => answer_replay(alloc, source, sink),
        Command::Combine => answer_combine(alloc, source, sink),
        Command::Show { name, grammar } => answer_show(alloc, name, grammar, source, sink),
        Command::Prove(name) => answer_prove(alloc, name, source, sink),
        Command::Verify(name) => answer_verify(alloc, name, source, sink),
        Command::Run(_)
        | Command::Exits
        | Command::Early
        | Command::Count(_)
        | Command::Marks { .. }
        | Command::Trial { .. }
        | Command::Unknown => told(sink, USAGE, Reason::Usage),
    }
}

/// Answers every command.
fn answer<T: Threads + Wait + Sync, S: Source, K: Sink, A: Areas, G: Gate + Sync>(
    host: &Host<T, G>,
    command: Command,
    source: &mut S,
    sink: &mut K,
    areas: &mut A,
) -> Status
    requires room { A.made areas.old < 2 ^ 61 }
    requires few { HasFewTasks command }
    ensures { Answered S.Source A.Areas K.Sink command source.old source.new areas.old areas.new sink.old sink.new result }
{
    match command {
        Command::Run(grammar) => answer_run(host, grammar, source, sink, areas),
        Command::Exits => answer_exits(host, source, sink, areas),
        Command::Early => answer_early(host, source, sink, areas),
        Command::Count(grammar) => answer_count(host, grammar, source, sink),
        Command::Marks { name, grammar } => answer_marks(host, name, grammar, source, sink, areas),
        Command::Trial { number, tasks } => answer_trial(host, number, tasks, sink, areas),
        Command::Table(_)
        | Command::Ends(_)
        | Command::Replay
        | Command::Combine
        | Command::Show { .. }
        | Command::Prove(_)
        | Command::Verify(_)
        | Command::Unknown => answer_one(host.alloc, command, source, sink),
    }
}

/// Serves the command that the words are:
/// - `run` reads a job from the source, runs its tasks on threads, each past the gate, and writes its report to the sink;
/// - `exits` does the same, but each task goes on at the exit that it has named at its next program interruption;
/// - `early` does as `run`, and tells behind the part of each session with a controller at which count of the controller's
///   instructions the session's sets were known as final, or that they weren't;
/// - `count` reads a job whose sessions have no controllers, runs its tasks on threads over cells of its own, each past the
///   gate, and writes how often each fact was met;
/// - `marks NAME` does as `run`, but writes the marks file of the session of the name;
/// - `trial NUMBER TASKS` reads nothing, runs the generated job of that number and so many tasks, 1 to 64, and writes its
///   summary;
/// - all other words are answered as `cover_one` answers them.
///
/// `services` may stand before the words of `run`, `count`, `marks`, `table`, `ends` and `show`: the job may then have SERVICE
/// cards, and its tasks run with its services.
///
/// Each refusal has its status and its line. Status 6 comes only where the sink's count of faults rose; the sink has then
/// taken a first part of the text, or nothing. Where no fault of source or sink was counted, and the source tells its
/// bytes, the status is that of the words and bytes, or 7; that of `trial` is 0 or 7, and that of words that are no
/// command is 1. So `verify` has 0 where marks and evidence are true, but for want of memory; and else never.
///
/// Areas are made by `run`, `exits`, `early`, `marks` and `trial` alone. They are as they were for every status but 0, 6
/// and 7; where the source's count of faults has changed; and, but for `trial`, where no job has come whose listings match
/// and, of `marks`, which has the session. Fewer than 2^61 areas were made before. It waits for the threads of the tasks;
/// for all words but `run`, `exits`, `early`, `count`, `marks` and `trial` it waits for nothing.
pub fn cover<T: Threads + Wait + Sync, S: Source, K: Sink, A: Areas, G: Gate + Sync>(
    rt: &T,
    alloc: Global,
    words: &[String],
    source: &mut S,
    sink: &mut K,
    areas: &mut A,
    gate: &G,
) -> Status
    requires { A.made areas.old < 2 ^ 61 }
    ensures { Serves S.Source A.Areas K.Sink words.now source.old source.new areas.old areas.new sink.old sink.new result }
{
    let host = Host { rt, alloc, gate };
    answer(&host, command_of(words), source, sink, areas)
}

/// Serves the commands that need no threads:
/// - `table` reads a job from the source, and writes the places of its modules to the sink;
/// - `ends` reads a job, runs each of its tasks once, whatever their phases, and writes of each its ending, the instructions
///   done and the address at which it ended, and of each module with a listing how many visits were begun in it where no place
///   begins;
/// - `replay` reads a job of one phase and a schedule, plays the schedule on the core, and writes what its items have shown
///   and the report of what they come to;
/// - `combine` reads marks files in succession, and writes the file of their union;
/// - `show NAME` reads a job and one marks file behind it, and writes the listings of the session of the name with the
///   file's marks;
/// - `prove NAME` reads a job, and writes the evidence of the session of the name, which has no controller;
/// - `verify NAME` reads a job, one marks file behind it and evidence behind that, and says how many facts these have where
///   they are true of the session of the name, which has no controller, and else the first cause why they are not.
///
/// `prove` and `verify` run each task of the session's phase once, alone. All other words, `run`, `exits`, `early`, `count`,
/// `marks` and `trial` too, are answered as words that are no command. What `cover` says of `services` and of statuses is
/// so here too. It always returns.
pub fn cover_one<S: Source, K: Sink>(
    alloc: Global,
    words: &[String],
    source: &mut S,
    sink: &mut K,
) -> Status
    ensures { ServedAlone S.Source K.Sink words.now source.old source.new sink.old sink.new result }
{
    answer_one(alloc, command_of(words), source, sink)
}
