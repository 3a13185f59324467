//! Areas that hand each call on to others and keep the first calls of each pass, and a gate that counts the arrivals of
//! each task, which stand among the calls where the task's next call finds them.
ghost use Rattle.std.specs.Prelude.{◌≡◌};

use super::held::Held;
use super::jobs::job_of;
use super::order::counts_of;
use super::serving::serve_over;
use arrayvec::ArrayVec;
use cov_base::{Bits, Fact, NoMemory, PlaceNo, SessNo, TaskNo};
use cov_outside::Gate;
use module_area::{Areas, Cell, Cells, Drains, Finals, Forks, Plan, Tally};
use shared_area::SharedAreas;
use std::alloc::Global;
use std::sync::Wait;
use std::sync::atomic::{AtomicU64, Ordering};
use std::test::Fail;
use std::thread::Threads;

/// A gate that counts how often the first task has arrived, the second, and others, and holds one.
#[derive(Drop)]
pub struct Arrivals {
    first: AtomicU64,
    second: AtomicU64,
    others: AtomicU64,
    held: Held,
}

impl Arrivals {
    /// None has arrived.
    fn new(held: Held) -> Arrivals {
        Arrivals {
            first: AtomicU64::new(0),
            second: AtomicU64::new(0),
            others: AtomicU64::new(0),
            held,
        }
    }

    fn count(&self, task: u32) -> &AtomicU64 {
        match task {
            0 => &self.first,
            1 => &self.second,
            _ => &self.others,
        }
    }

    /// How often the task has arrived, 2 for others than the first two.
    fn of(&self, task: u32) -> u64 {
        self.count(task).load(Ordering::SeqCst)
    }

    /// How many boundaries the tasks have made that aren't held.
    fn boundaries(&self) -> u64 {
        self.held.boundaries()
    }
}

impl Gate for Arrivals {
    fn arrive(&self, task: TaskNo) {
        let _ = self.count(task.0).fetch_add(1, Ordering::SeqCst);
        self.held.arrive(task);
    }
}

/// A call on a place, or that its task has arrived at the gate for so many times by the next call.
#[derive(Clone, Copy)]
pub enum Call {
    Arrive(u64),
    Plant(u32),
    Fetch(u32),
    Mark(u32, Fact),
    Lift(u32),
    Close(u32),
}

impl Default for Call {
    fn default() -> Call {
        Call::Fetch(0)
    }
}

/// The number that the digits spell.
pub fn number_in(digits: &str) -> u32 {
    u32::from_str_radix(digits, 10).unwrap_or(u32::MAX)
}

/// A call's word, and its number.
fn word_of(call: Call) -> (&'static str, u64) {
    match call {
        Call::Arrive(times) => ("arrive", times),
        Call::Plant(place) => ("plant", u64::from(place)),
        Call::Fetch(place) => ("fetch", u64::from(place)),
        Call::Mark(place, Fact::Ran) => ("ran", u64::from(place)),
        Call::Mark(place, Fact::Went) => ("went", u64::from(place)),
        Call::Mark(place, Fact::Stayed) => ("stayed", u64::from(place)),
        Call::Lift(place) => ("lift", u64::from(place)),
        Call::Close(place) => ("close", u64::from(place)),
    }
}

/// Whether the words name the call.
fn is_call(call: Call, words: &str) -> bool {
    let (kind, digits) = words.split_once(' ').unwrap_or((words, ""));
    let (word, number) = word_of(call);
    word == kind && number == u64::from(number_in(digits))
}

/// Whether these are the calls that the words name, parted by commas: a mark by its fact.
pub fn are_calls(calls: &[Call], words: &str) -> bool {
    let mut count = 0usize;
    for expected in words.split(", ") {
        match calls.get(count) {
            Some(call) if is_call(*call, expected) => count = count.wrapping_add(1),
            _ => return false,
        }
    }
    count == calls.len()
}

pub type Calls = ArrayVec<Call, 64>;

fn keep(calls: &mut Calls, call: Call) {
    if !calls.is_full() {
        calls.push(call);
    }
}

fn keep_all(calls: &mut Calls, others: &Calls) {
    for call in others {
        keep(calls, *call);
    }
}

/// The calls of one pass, of a task but for the root's, and how often that task had arrived by the last of them.
#[derive(Drop)]
struct Kept {
    task: Option<u32>,
    arrived: u64,
    calls: Calls,
}

impl Kept {
    fn new(task: Option<u32>) -> Kept {
        Kept {
            task,
            arrived: 0,
            calls: ArrayVec::new(),
        }
    }

    fn keep(&mut self, arrivals: &Arrivals, call: Call) {
        if let Some(task) = self.task {
            let arrived = arrivals.of(task);
            if arrived != self.arrived {
                keep(&mut self.calls, Call::Arrive(arrived));
                self.arrived = arrived;
            }
        }
        keep(&mut self.calls, call);
    }
}

/// A pass, and the calls that it has made.
#[derive(Drop)]
pub struct NotedPass<P> {
    pass: P,
    kept: Kept,
}

/// Cells, and the gate at which their passes' tasks arrive.
#[derive(Drop)]
pub struct NotedCells<'a, C> {
    cells: C,
    arrivals: &'a Arrivals,
}

impl<'a, C: Forks> Cells for NotedCells<'a, C> {
    type Pass = NotedPass<C::Pass>;

    ghost plan = { λ c. C.plan c.cells };

    ghost is_pass = { λ c p. C.is_pass c.cells p.pass };

    ghost notes = { λ p. C.notes p.pass };

    fn fetch(&self, pass: &mut NotedPass<C::Pass>, place: PlaceNo) -> Cell {
        pass.kept.keep(self.arrivals, Call::Fetch(place.0));
        self.cells.fetch(&mut pass.pass, place)
    }

    fn mark(&self, pass: &mut NotedPass<C::Pass>, s: SessNo, place: PlaceNo, fact: Fact) -> Bits {
        pass.kept.keep(self.arrivals, Call::Mark(place.0, fact));
        self.cells.mark(&mut pass.pass, s, place, fact)
    }

    fn lift(&self, pass: &mut NotedPass<C::Pass>, s: SessNo, place: PlaceNo) -> bool {
        pass.kept.keep(self.arrivals, Call::Lift(place.0));
        self.cells.lift(&mut pass.pass, s, place)
    }

    fn plant(&self, pass: &mut NotedPass<C::Pass>, s: SessNo, place: PlaceNo) {
        pass.kept.keep(self.arrivals, Call::Plant(place.0));
        self.cells.plant(&mut pass.pass, s, place)
    }

    fn close(&self, pass: &mut NotedPass<C::Pass>, s: SessNo, place: PlaceNo) {
        pass.kept.keep(self.arrivals, Call::Close(place.0));
        self.cells.close(&mut pass.pass, s, place)
    }
}

impl<'a, C: Forks> Forks for NotedCells<'a, C> {
    fn split(&self, root: &mut NotedPass<C::Pass>, task: TaskNo) -> NotedPass<C::Pass> {
        NotedPass {
            pass: self.cells.split(&mut root.pass, task),
            kept: Kept::new(Some(task.0)),
        }
    }

    fn join(&self, root: &mut NotedPass<C::Pass>, other: NotedPass<C::Pass>) {
        let NotedPass { pass, kept } = other;
        keep_all(&mut root.kept.calls, &kept.calls);
        self.cells.join(&mut root.pass, pass)
    }
}

impl<'a, C: Drains> Drains for NotedCells<'a, C> {
    fn boundary(&self, pass: &mut NotedPass<C::Pass>, ended: bool) {
        self.cells.boundary(&mut pass.pass, ended);
        self.arrivals.held.go_on(pass.kept.task, ended);
    }

    fn note(&self, pass: &mut NotedPass<C::Pass>, task: TaskNo) -> u64 {
        let number = self.cells.note(&mut pass.pass, task);
        self.arrivals.held.look();
        number
    }

    fn read_set(&self, pass: &mut NotedPass<C::Pass>, s: SessNo, place: PlaceNo) -> Bits {
        self.cells.read_set(&mut pass.pass, s, place)
    }
}

/// The calls are those of the area that was finished last.
#[derive(Drop)]
struct NotedAreas<'a, A> {
    areas: A,
    arrivals: &'a Arrivals,
    calls: Calls,
}

impl<'a, A: Areas> NotedAreas<'a, A> {
    /// No area was finished yet.
    fn new(areas: A, arrivals: &'a Arrivals) -> NotedAreas<'a, A>
        ensures { result.areas ≡ areas }
    {
        NotedAreas {
            areas,
            arrivals,
            calls: ArrayVec::new(),
        }
    }
}

impl<'a, A: Areas> Areas for NotedAreas<'a, A> {
    type C = NotedCells<'a, A::C>;

    ghost ledger = { λ a. A.ledger a.areas };

    ghost finals = { λ a. A.finals a.areas };

    ghost made = { λ a. A.made a.areas };

    fn make(
        &mut self,
        alloc: Global,
        plan: &Plan,
    ) -> Result<(NotedCells<'a, A::C>, NotedPass<<A::C as Cells>::Pass>), NoMemory> {
        let (cells, pass) = self.areas.make(alloc, plan)?;
        let root = NotedPass {
            pass,
            kept: Kept::new(None),
        };
        let arrivals = self.arrivals;
        Ok((NotedCells { cells, arrivals }, root))
    }

    fn finish(
        &mut self,
        alloc: Global,
        cells: NotedCells<'a, A::C>,
        pass: NotedPass<<A::C as Cells>::Pass>,
    ) -> Result<Finals, NoMemory> {
        let NotedCells { cells, arrivals: _ } = cells;
        let NotedPass { pass, kept } = pass;
        self.calls = kept.calls;
        self.areas.finish(alloc, cells, pass)
    }

    fn ledger(&self) -> &[Tally] {
        self.areas.ledger()
    }

    fn finals(&self) -> &[Finals] {
        self.areas.finals()
    }

    fn made(&self) -> u64 {
        self.areas.made()
    }
}

/// What came of words: the status and the text; the calls on the area that was finished last, and its plants, fetches, marks, lifts
/// and closes; how often the first task has arrived, the second and others; and how many boundaries those have made that aren't
/// held.
#[derive(Drop)]
pub struct Came {
    pub status: u8,
    pub text: Vec<u8>,
    pub calls: Calls,
    pub counts: Option<[u64; 5]>,
    pub arrived: [u64; 3],
    pub boundaries: u64,
}

/// What comes of words on the job of this program and of these lines, where a task is held so.
pub fn came_of<T: Threads + Wait + Sync>(
    rt: &T,
    alloc: Global,
    words: &str,
    program: &str,
    own: &str,
    held: Held,
) -> Result<Came, Fail> {
    let gate = Arrivals::new(held);
    let job = job_of(alloc, program, own)?;
    let shared = SharedAreas::new(alloc, 2)?;
    let mut areas = NotedAreas::new(shared, &gate);
    let (status, text) = serve_over(rt, alloc, words, &job, &mut areas, &gate)?;
    let counts = counts_of(areas.ledger());
    let NotedAreas {
        areas: _shared,
        arrivals: _,
        calls,
    } = areas;
    Ok(Came {
        status,
        text,
        calls,
        counts,
        arrived: [gate.of(0), gate.of(1), gate.of(2)],
        boundaries: gate.boundaries(),
    })
}
