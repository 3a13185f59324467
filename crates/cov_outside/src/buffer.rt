//! A buffer in front of a sink.
ghost use Rattle.std.specs.Prelude.{◌≡◌, ◌++◌, [], ◌+◌, ◌<◌, ◌≤◌, length};
ghost use Rattle.arrayvec.specs.ArrayVec.{array_vec_len};
ghost use Rattle.cov_outside.specs.Writes.{Writes};
ghost use Rattle.cov_outside.specs.Puts.{Puts};

use crate::streams::{Failed, Sink};
use crate::whole::write_all;
use arrayvec::ArrayVec;
use std::marker::Model;

/// How many bytes a buffer has room for.
const ROOM: usize = 4096;

/// Holds bytes on their way to a sink, which gets 4,096 or more at a time, and what is held then by `flush`. It takes no
/// memory.
#[derive(Drop)]
pub struct WriteBuffer {
    held: ArrayVec<u8, 4096>,
}

impl Model for WriteBuffer {
    ghost use Rattle.std.specs.Prelude.{ℕ, List};

    ghost Value = { List ℕ };

    ghost view = { λ b. b.held.items };
}

/// Adds bytes that there is room for.
fn hold(held: &mut ArrayVec<u8, 4096>, bytes: &[u8])
    requires { array_vec_len held.old + length bytes.now ≤ 4096 }
    ensures { held.new.items ≡ held.old.items ++ bytes.now }
{
    let Ok(()) = held.try_extend_from_slice(bytes) else {
        unreachable!()
    };
}

impl WriteBuffer {
    /// A buffer that holds nothing.
    pub fn new() -> WriteBuffer
        ensures { result ≡ [] }
    {
        WriteBuffer {
            held: ArrayVec::new(),
        }
    }

    /// Puts the bytes behind those held. When it is full the sink gets all that is held, and then at once what is left
    /// of the bytes where that is 4,096 or more. Failed only where the sink's count of faults rose or stands at its end;
    /// the sink has then taken a first part, and what it has not taken is lost.
    pub fn put<K: Sink>(&mut self, sink: &mut K, bytes: &[u8]) -> Result<(), Failed>
        ensures put { Puts K.written K.faults sink.old sink.new self.old self.new result bytes.now }
        ensures waits { length self.old + length bytes.now < 4096 → sink.new ≡ sink.old }
    {
        let room = self.held.remaining_capacity();
        if bytes.len() < room {
            hold(&mut self.held, bytes);
            return Ok(());
        }
        hold(&mut self.held, &bytes[..room]);
        self.flush(sink)?;
        let rest = &bytes[room..];
        if rest.len() < ROOM {
            hold(&mut self.held, rest);
            return Ok(());
        }
        write_all(sink, rest)
    }

    /// Gives the sink all that is held, and holds nothing then, also where it failed.
    pub fn flush<K: Sink>(&mut self, sink: &mut K) -> Result<(), Failed>
        ensures written { Writes K.written K.faults sink.old sink.new result self.old }
        ensures empty { self.new ≡ [] }
    {
        let result = write_all(sink, &self.held);
        self.held.clear();
        result
    }
}
