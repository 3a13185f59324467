//! The words of the command line.
ghost use Rattle.std.specs.Prelude.{◌≡◌, map, string_bytes};
ghost use Rattle.std.specs.Str.{bytes_eq};
ghost use Rattle.cov_base.specs.Meaning.{name_at};
ghost use Rattle.job_input.specs.Meaning.{number_word, plain_only, command_alone, command_named, command_numbered, command_in, command_of};
ghost use Rattle.job_input.specs.Words.{HasFewTasks};

use annotator::text::add_number;
use arrayvec::ArrayVec;
use cov_base::Name;
use job_text::Grammar;

/// What the words ask for. A command with a grammar reads its job by that, and runs tasks, if it does, with the job's services.
#[derive(Clone, Copy)]
pub enum Command {
    /// `run`: the report of a job.
    Run(Grammar),
    /// `exits`: the report of a job whose tasks may name exits.
    Exits,
    /// `early`: the report of a job, with when the sets of its controlled sessions were taken.
    Early,
    /// `count`: how often each fact of a job's sessions was met.
    Count(Grammar),
    /// `marks NAME`: the marks file of a session of a job that is run.
    Marks { name: Name, grammar: Grammar },
    /// `trial NUMBER TASKS`: the summary of a generated job that is run, of 1 to 64 tasks.
    Trial { number: u32, tasks: u32 },
    /// `table`: the places of its modules.
    Table(Grammar),
    /// `ends`: where each of its tasks ends, and how much ran where no place begins.
    Ends(Grammar),
    /// `replay`: a schedule of its tasks' events, played on a core.
    Replay,
    /// `combine`: the union of marks files.
    Combine,
    /// `show NAME`: the listings of a session of a job, marked by a marks file.
    Show { name: Name, grammar: Grammar },
    /// `prove NAME`: the evidence of the facts of a session of a job.
    Prove(Name),
    /// `verify NAME`: whether a marks file and evidence of a session of a job are true.
    Verify(Name),
    /// Any other words.
    Unknown,
}

/// Whether the word is this text.
fn is(word: &str, text: &str) -> bool
    ensures { result ≡ bytes_eq word.now text.now }
{
    word == text
}

/// The command, where `services` doesn't stand before its words.
fn plain_only(grammar: Grammar, command: Command) -> Command
    ensures { result ≡ plain_only grammar command }
{
    match grammar {
        Grammar::Plain => command,
        Grammar::Services => Command::Unknown,
    }
}

/// The command of one word.
fn command_alone(grammar: Grammar, word: &str) -> Command
    ensures { result ≡ command_alone grammar word.now }
{
    if is(word, "run") {
        return Command::Run(grammar);
    }
    if is(word, "table") {
        return Command::Table(grammar);
    }
    if is(word, "count") {
        return Command::Count(grammar);
    }
    if is(word, "ends") {
        return Command::Ends(grammar);
    }
    if is(word, "replay") {
        return plain_only(grammar, Command::Replay);
    }
    if is(word, "combine") {
        return plain_only(grammar, Command::Combine);
    }
    if is(word, "exits") {
        return plain_only(grammar, Command::Exits);
    }
    if is(word, "early") {
        return plain_only(grammar, Command::Early);
    }
    Command::Unknown
}

/// The command of a word and a session's name.
fn command_named(grammar: Grammar, word: &str, name: &str) -> Command
    ensures { result ≡ command_named grammar word.now (name_at name.now) }
{
    let Some(name) = Name::read(name.as_bytes()) else {
        return Command::Unknown;
    };
    if is(word, "marks") {
        return Command::Marks { name, grammar };
    }
    if is(word, "show") {
        return Command::Show { name, grammar };
    }
    if is(word, "prove") {
        return plain_only(grammar, Command::Prove(name));
    }
    if is(word, "verify") {
        return plain_only(grammar, Command::Verify(name));
    }
    Command::Unknown
}

/// The number that the word is the decimal of, below 2^32 and without a leading zero.
fn number_of(word: &str) -> Option<u32>
    ensures { result ≡ number_word word.now }
{
    let Ok(number) = word.parse::<u32>() else {
        return None;
    };
    let mut digits: ArrayVec<u8, 160> = ArrayVec::new();
    add_number(&mut digits, u64::from(number));
    if digits.as_slice() == word.as_bytes() {
        Some(number)
    } else {
        None
    }
}

/// The command of a word and two numbers.
fn command_numbered(word: &str, number: &str, tasks: &str) -> Command
    ensures value { result ≡ command_numbered word.now (number_word number.now) (number_word tasks.now) }
    ensures few { HasFewTasks result }
{
    let (Some(number), Some(tasks)) = (number_of(number), number_of(tasks)) else {
        return Command::Unknown;
    };
    if word == "trial" && (1 <= tasks && tasks <= 64) {
        Command::Trial { number, tasks }
    } else {
        Command::Unknown
    }
}

/// The command of the words, those behind `services` where the job's grammar has SERVICE cards.
fn command_in(grammar: Grammar, words: &[String]) -> Command
    ensures value { result ≡ command_in grammar (map string_bytes words.now) }
    ensures few { HasFewTasks result }
{
    match words {
        [word] => command_alone(grammar, word),
        [word, name] => command_named(grammar, word, name),
        [word, number, tasks] => plain_only(grammar, command_numbered(word, number, tasks)),
        _ => Command::Unknown,
    }
}

/// The command that the words are. Behind `services` stand those of `run`, `marks NAME`, `show NAME`, `table`, `count` or
/// `ends`.
pub fn command_of(words: &[String]) -> Command
    ensures value { result ≡ command_of (map string_bytes words.now) }
    ensures few { HasFewTasks result }
{
    match words {
        [first, behind @ ..] if first.as_str() == "services" => command_in(
            Grammar::Services,
            behind,
        ),
        _ => command_in(Grammar::Plain, words),
    }
}
