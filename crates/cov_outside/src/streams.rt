//! What a source and a sink of bytes are.
ghost use Rattle.std.specs.Prelude.{◌≡◌, ◌<◌, ◌≤◌, ℕ, List, length, IfOk, OnOk};
ghost use Rattle.std.specs.declared.option.Option.{Option};
ghost use Rattle.std.specs.Io.{ReadsAtMost};
ghost use Rattle.std.specs.Io.KnownBytes.{ReadConsumes, WriteAppends};
ghost use Rattle.cov_outside.specs.Causes.{HasCause};

/// A fault of the device, which its count has.
#[derive(Clone, Copy)]
pub struct Failed;

/// A device that gives bytes. Its count of faults never falls; at its end, 2^64 - 1, it needn't rise.
pub trait Source {
    /// The bytes that are left, where it tells them.
    ghost left: { Self → Option (List ℕ) };

    /// How often it has failed.
    ghost faults: { Self → ℕ };

    /// Fills the front of a buffer that isn't empty, and answers with how many bytes; with 0 only at the end.
    /// Failed only where the count rose or stands at its end; no byte is then lost. An Ok leaves the count.
    fn read(&mut self, buf: &mut [u8]) -> Result<usize, Failed>
        requires { 0 < length buf.old }
        ensures bound { ReadsAtMost result buf.new }
        ensures bytes { ReadConsumes (left self.old) (left self.new) result buf.new }
        ensures cause { HasCause (faults self.old) (faults self.new) result }
        ensures no_fault { OnOk result (faults self.new ≡ faults self.old) };
}

/// A device that takes bytes. Its count of faults never falls; at its end, 2^64 - 1, it needn't rise.
pub trait Sink {
    /// The bytes that were written, where it tells them.
    ghost written: { Self → Option (List ℕ) };

    /// How often it has failed.
    ghost faults: { Self → ℕ };

    /// Takes the first bytes of a piece that isn't empty, at least one, and answers with how many.
    /// Failed only where the count rose or stands at its end; nothing of the piece is then taken. An Ok may raise it.
    fn write(&mut self, piece: &[u8]) -> Result<usize, Failed>
        requires { 0 < length piece.now }
        ensures some { IfOk result (λ n. 0 < n) }
        ensures bound { IfOk result (λ n. n ≤ length piece.now) }
        ensures bytes { WriteAppends (written self.old) (written self.new) result piece.now }
        ensures cause { HasCause (faults self.old) (faults self.new) result };
}
