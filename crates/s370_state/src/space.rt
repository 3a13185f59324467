//! A task's storage: what it may reach, store and read.
ghost use Rattle.std.specs.Prelude.{◌≡◌, ℕ, ◌*◌, ◌/◌, ◌<◌, ◌≤◌, ◌^◌, List, true, length, slice_set, IfSome, IsTrue, None};
ghost use Rattle.cov_base.specs.Meaning.{Memory, byte_at, is_accessible, is_private, can_reach, can_store, first_touch, wrap};
ghost use Rattle.s370_state.specs.Answers.{reach_answer, store_answer, touch_answer, half_answer, first_answer};
ghost use Rattle.s370_state.specs.Fields.{AreBytes, copied, words_stored};
ghost use Rattle.s370_state.specs.Meaning.{number_at, store_number, store_bytes};

use cov_base::Addr;

/// Why an operand's byte or an instruction's halfword is not to be had.
#[derive(Clone, Copy, Drop)]
pub enum Refused {
    /// A byte is neither private nor in a module: interruption code 5.
    Addressing,
    /// A byte to be stored is in a module: interruption code 4.
    Protection,
    /// A byte to be read is a touch byte, the first of the operand at this address.
    Touch(Addr),
}

/// The storage of one task: private bytes from address 0 on, and modules, of which it may only read. Operands
/// wrap modulo 2^24 (Principles of Operation, "Storage Addressing").
pub trait Space {
    /// The size of private storage, the modules' bytes and the touch bytes, which no call changes.
    ghost memory: { Self → Memory };

    /// The private bytes.
    ghost bytes: { Self → List ℕ };

    /// A later halfword of an instruction: Addressing exactly where one of its bytes is inaccessible, else Touch
    /// exactly where its first byte is a touch byte.
    fn half(&self, at: Addr) -> Result<u16, Refused>
        ensures { result ≡ half_answer (memory self.now) (bytes self.now) at };

    /// The first halfword of an instruction as it was before any breakpoint: Addressing exactly where one of its
    /// bytes is inaccessible, and never refused otherwise.
    fn first(&self, at: Addr) -> Result<u16, Refused>
        ensures { result ≡ first_answer (memory self.now) (bytes self.now) at };

    /// Addressing exactly where one of the bytes is inaccessible.
    fn can_reach(&self, at: Addr, len: u32) -> Result<(), Refused>
        ensures { result ≡ reach_answer (memory self.now) at len };

    /// Protection exactly where one of the bytes, all accessible, is not private.
    fn can_store(&self, at: Addr, len: u32) -> Result<(), Refused>
        requires { can_reach (memory self.now) at len ≡ true }
        ensures { result ≡ store_answer (memory self.now) at len };

    /// Touch, with the address of the first, exactly where one of the bytes, all accessible, is a touch byte.
    fn can_read(&self, at: Addr, len: u32) -> Result<(), Refused>
        requires { can_reach (memory self.now) at len ≡ true }
        ensures { result ≡ touch_answer (memory self.now) at len };

    /// Whether the operand is seen at once to lie in private storage, where it passes each test. It may be false for any operand.
    fn is_own(&self, at: Addr, len: u32) -> bool
        ensures reach { IsTrue result → can_reach (memory self.now) at len ≡ true }
        ensures store { IsTrue result → can_store (memory self.now) at len ≡ true }
        ensures touch { IsTrue result → first_touch (memory self.now) at len ≡ None };

    /// The byte at an accessible address.
    fn byte(&self, at: Addr) -> u8
        requires { is_accessible (memory self.now) at ≡ true }
        ensures { result ≡ byte_at (memory self.now) (bytes self.now) at };

    /// The word at an address whose four bytes are accessible.
    fn word(&self, at: Addr) -> u32
        requires { can_reach (memory self.now) at 4 ≡ true }
        ensures { result ≡ number_at (memory self.now) (bytes self.now) at 4 };

    /// The bytes of an operand, where they stand in a row in private storage or in one module. It may be None for any operand,
    /// whose bytes are then had one at a time.
    fn slice(&self, at: Addr, len: u32) -> Option<&[u8]>
        ensures { IfSome result (λ s. AreBytes (memory self.now) (bytes self.now) at len s.now) };

    /// Changes the byte at a private address, and no other.
    fn put(&mut self, at: Addr, value: u8)
        requires { is_private (memory self.old) at ≡ true }
        ensures memory { memory self.new ≡ memory self.old }
        ensures bytes { bytes self.new ≡ slice_set (bytes self.old) at value };

    /// Changes the four bytes at a private address, of which each is private, and no other.
    fn put_word(&mut self, at: Addr, value: u32)
        requires { can_store (memory self.old) at 4 ≡ true }
        ensures memory { memory self.new ≡ memory self.old }
        ensures bytes { bytes self.new ≡ store_number (bytes self.old) at 4 value };

    /// Changes the bytes of at most 16 words from a private address on, of which each is private, and no other.
    fn put_words(&mut self, at: Addr, from: &[u32])
        requires most { length from.now ≤ 16 }
        requires store { can_store (memory self.old) at (4 * length from.now) ≡ true }
        ensures memory { memory self.new ≡ memory self.old }
        ensures bytes { bytes self.new ≡ words_stored (bytes self.old) at from.now (length from.now) };

    /// Changes at most 2^24 bytes from a private address on, of which each is private, and no other.
    fn put_slice(&mut self, at: Addr, from: &[u8])
        requires most { length from.now ≤ 16777216 }
        requires store { can_store (memory self.old) at (length from.now) ≡ true }
        ensures memory { memory self.new ≡ memory self.old }
        ensures bytes { bytes self.new ≡ store_bytes (bytes self.old) at from.now };

    /// Copies bytes to private ones, one at a time and left to right, so that ranges that overlap repeat what was copied before.
    fn copy(&mut self, to: Addr, from: Addr, len: u32)
        requires store { can_store (memory self.old) to len ≡ true }
        requires reach { can_reach (memory self.old) from len ≡ true }
        ensures memory { memory self.new ≡ memory self.old }
        ensures bytes { bytes self.new ≡ copied (memory self.old) (bytes self.old) to from len };

    /// Private storage has all its bytes, so that what is put at a private address stands there.
    ghost filled: { (s : Self) → length (bytes s) ≡ (memory s).private };
}
