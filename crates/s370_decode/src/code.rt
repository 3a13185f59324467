//! An instruction's bytes and its fields (Principles of Operation, "Instruction Formats").
ghost use Rattle.std.specs.Prelude.{◌≡◌, ◌<◌};
ghost use Rattle.s370_decode.specs.Meaning.{first_half, r1, r2, i2, b1, d1, b2, d2};

use cov_base::Addr;

/// An instruction: where it stands, its bytes filled with zeros past its length, and its length, 2, 4 or 6.
/// A code that was read from a listing has the address 0.
#[derive(Clone, Copy)]
pub struct Code {
    pub at: Addr,
    pub bytes: [u8; 6],
    pub len: u8,
}

/// The fields are bits of the bytes, numbered from 0 at the left.
#[tactic(auto, unfolding(crate::specs::Meaning::r1, crate::specs::Meaning::r2, crate::specs::Meaning::i2, crate::specs::Meaning::b1, crate::specs::Meaning::d1, crate::specs::Meaning::b2, crate::specs::Meaning::d2))]
impl Code {
    /// Bits 0-15: the operation code and the byte behind it.
    pub fn first_half(&self) -> u16
        ensures { result ≡ first_half self.now }
    {
        u16::from(self.bytes[0]) * 256 + u16::from(self.bytes[1])
    }

    /// Bits 8-11: the first register, a mask, or the first operand's length code.
    pub fn r1(&self) -> u8
        ensures value { result ≡ r1 self.now }
        ensures below { result < 16 }
    {
        self.bytes[1] / 16
    }

    /// Bits 12-15: the second or third register, the index, a mask, the second operand's length code, or an immediate digit.
    pub fn r2(&self) -> u8
        ensures value { result ≡ r2 self.now }
        ensures below { result < 16 }
    {
        self.bytes[1] % 16
    }

    /// Bits 8-15: an immediate byte, or a length code.
    pub fn i2(&self) -> u8
        ensures { result ≡ i2 self.now }
    {
        self.bytes[1]
    }

    /// Bits 16-19: the first operand's base.
    pub fn b1(&self) -> u8
        ensures value { result ≡ b1 self.now }
        ensures below { result < 16 }
    {
        self.bytes[2] / 16
    }

    /// Bits 20-31: the first operand's displacement.
    pub fn d1(&self) -> u16
        ensures value { result ≡ d1 self.now }
        ensures below { result < 4096 }
    {
        u16::from(self.bytes[2]) % 16 * 256 + u16::from(self.bytes[3])
    }

    /// Bits 32-35 of an instruction of 6 bytes, else bits 16-19: the second operand's base.
    pub fn b2(&self) -> u8
        ensures value { result ≡ b2 self.now }
        ensures below { result < 16 }
    {
        if self.len == 6 {
            self.bytes[4] / 16
        } else {
            self.bytes[2] / 16
        }
    }

    /// Bits 36-47 of an instruction of 6 bytes, else bits 20-31: the second operand's displacement.
    pub fn d2(&self) -> u16
        ensures value { result ≡ d2 self.now }
        ensures below { result < 4096 }
    {
        if self.len == 6 {
            u16::from(self.bytes[4]) % 16 * 256 + u16::from(self.bytes[5])
        } else {
            u16::from(self.bytes[2]) % 16 * 256 + u16::from(self.bytes[3])
        }
    }
}
