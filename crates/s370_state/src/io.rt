//! A task's input and output, which the task calls SVC 1 and SVC 2 move.
ghost use Rattle.std.specs.Prelude.{◌≡◌, ◌<◌, ◌≤◌, ◌^◌, IfOk, length};
ghost use Rattle.s370_state.specs.Meaning.{fresh_io, bytes_left, bytes_free};
ghost use Rattle.s370_state.specs.Io.{next_byte, after_take, after_put};

use cov_base::NoMemory;
use std::alloc::Global;
use std::marker::Model;

/// Input with the number of its bytes that were taken, and output whose room was reserved.
#[derive(Drop)]
pub struct TaskIo {
    input: Vec<u8>,
    taken: usize,
    output: Vec<u8>,
    room: u32,
}

impl Model for TaskIo {
    ghost use Rattle.std.specs.Prelude.{◌≤◌, length, vec_capacity};
    ghost use Rattle.cov_base.specs.Meaning.{IoView};

    ghost Value = { IoView };

    ghost view = { λ t. record { input = t.input.items; taken = t.taken; output = t.output.items; room = t.room } };

    ghost invariant = { λ t. (t.taken ≤ length t.input.items) × (length t.output.items ≤ t.room) × (t.room ≤ vec_capacity t.output) };
}

impl TaskIo {
    /// Takes the memory of the whole room, so that no output takes any.
    pub fn new(alloc: Global, input: Vec<u8>, room: u32) -> Result<TaskIo, NoMemory>
        ensures { IfOk result (λ io. io ≡ fresh_io input.items room) }
    {
        let output = Vec::with_capacity(alloc, room as usize)?;
        Ok(TaskIo {
            input,
            taken: 0,
            output,
            room,
        })
    }

    /// The number of input bytes not yet taken.
    pub fn left(&self) -> usize
        ensures { result ≡ bytes_left self.now }
    {
        self.input.len() - self.taken
    }

    /// The next input byte; one must be left.
    pub fn take(&mut self) -> u8
        requires { 0 < bytes_left self.old }
        ensures value { result ≡ next_byte self.old }
        ensures taken { self.new ≡ after_take self.old }
    {
        let value = self.input[self.taken];
        self.taken += 1;
        value
    }

    /// The room less the length of the output.
    pub fn free(&self) -> u32
        ensures { result ≡ bytes_free self.now }
    {
        self.room - self.output.len() as u32
    }

    /// Appends a byte to the output; one must be free. Takes no memory.
    pub fn put(&mut self, value: u8)
        requires { 0 < bytes_free self.old }
        ensures { self.new ≡ after_put self.old value }
    {
        let Ok(()) = self.output.push(value) else {
            unreachable!()
        };
    }

    /// The output so far.
    pub fn output(&self) -> &[u8]
        ensures { result.now ≡ self.now.output }
    {
        &self.output
    }
}
