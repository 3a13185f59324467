//! Takes the cards of a task.
ghost use Rattle.std.specs.Prelude.{◌≡◌, Some, IfOk, IfErr};
ghost use Rattle.job_text.specs.TaskParts as parts;
ghost use Rattle.job_text.specs.Views.{view};

use crate::card::{Card, RegCard};
use crate::refused::LineRefused;
use cov_base::{Addr, Name, RETURN_ADDRESS};
use module_area::DataCard;
use session_book::TaskCard;
use std::alloc::{AllocError, Global};

/// Which cards of a task may follow.
#[derive(Clone, Copy)]
pub(crate) enum TaskStage {
    /// REG for register `least` and those above, DATA and INPUT.
    Regs { least: u8 },
    /// DATA and INPUT.
    Data,
    /// INPUT.
    Inputs,
}

/// A task, as far as its cards were read.
#[derive(Drop)]
pub(crate) struct TaskPart {
    pub task: TaskCard,
    pub stage: TaskStage,
}

/// The task of a TASK card.
pub(crate) fn fresh_task(
    alloc: Global,
    name: Name,
    entry: Addr,
    private: u32,
    budget: u32,
    room: u32,
) -> TaskPart
    ensures { result ≡ parts.fresh_task name entry private budget room }
{
    let mut regs = [0u32; 16];
    regs[14] = RETURN_ADDRESS;
    regs[15] = entry.get();
    let task = TaskCard {
        name,
        phase: 0,
        entry,
        private,
        budget,
        room,
        regs,
        cards: Vec::new(alloc),
        input: Vec::new(alloc),
    };
    TaskPart {
        task,
        stage: TaskStage::Regs { least: 0 },
    }
}

impl TaskStage {
    fn takes_reg(self, number: u8) -> bool
        ensures { result ≡ parts.takes_reg self number }
    {
        match self {
            TaskStage::Regs { least } => least <= number,
            _ => false,
        }
    }

    fn takes_data(self) -> bool
        ensures { result ≡ parts.takes_data self }
    {
        match self {
            TaskStage::Inputs => false,
            _ => true,
        }
    }
}

/// Whether the bytes are all inside private storage of this size.
fn is_inside(private: u32, card: &DataCard) -> bool
    ensures { result ≡ parts.is_inside private card.now }
{
    u64::from(card.offset) + card.bytes.len() as u64 <= u64::from(private)
}

impl TaskPart {
    fn reg(&mut self, reg: RegCard) -> Result<(), LineRefused>
        ensures name { self.new.task.name ≡ self.old.task.name }
        ensures ok { IfOk result (λ _. parts.after_reg self.old reg.number reg.value ≡ Some self.new) }
        ensures err { IfErr result (parts.IsOut (parts.after_reg self.old reg.number reg.value)) }
    {
        if !self.stage.takes_reg(reg.number) {
            return Err(LineRefused::Bad);
        }
        self.task.regs[reg.number as usize] = reg.value;
        self.stage = TaskStage::Regs {
            least: reg.number + 1,
        };
        Ok(())
    }

    fn data(&mut self, card: DataCard) -> Result<(), LineRefused>
        ensures name { self.new.task.name ≡ self.old.task.name }
        ensures ok { IfOk result (λ _. parts.after_data self.old card ≡ Some self.new) }
        ensures err { IfErr result (parts.IsOut (parts.after_data self.old card)) }
    {
        if !(self.stage.takes_data() && is_inside(self.task.private, &card)) {
            return Err(LineRefused::Bad);
        }
        self.task.cards.push(card)?;
        self.stage = TaskStage::Data;
        Ok(())
    }

    fn input(&mut self, bytes: &[u8]) -> Result<(), AllocError>
        ensures name { self.new.task.name ≡ self.old.task.name }
        ensures value { IfOk result (λ _. self.new ≡ parts.after_input self.old bytes.now) }
    {
        self.task.input.extend_from_slice(bytes)?;
        self.stage = TaskStage::Inputs;
        Ok(())
    }

    /// Takes a further card of the task.
    pub(crate) fn card(&mut self, card: Card) -> Result<(), LineRefused>
        ensures name { self.new.task.name ≡ self.old.task.name }
        ensures ok { IfOk result (λ _. parts.task_more self.old (view card) ≡ Some self.new) }
        ensures err { IfErr result (parts.IsOut (parts.task_more self.old (view card))) }
    {
        match card {
            Card::Reg(reg) => self.reg(reg),
            Card::Data(data) => self.data(data),
            Card::Input(bytes) => Ok(self.input(&bytes)?),
            _ => Err(LineRefused::Bad),
        }
    }
}
