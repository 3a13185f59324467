//! The registers and the parts of the program status word that a task sees.
ghost use Rattle.std.specs.Prelude.{◌≡◌, ℕ, ◌+◌, ◌*◌, ◌/◌, ◌%◌, ◌<◌, ◌≤◌, ◌^◌, slice_index, slice_set, ◌-◌, length};
ghost use Rattle.cov_base.specs.Meaning.{base};
ghost use Rattle.s370_state.specs.Meaning.{pair, with_pair, with_address};
ghost use Rattle.s370_decode.specs.Decoded.{address_register};
ghost use Rattle.s370_decode.specs.Meaning.{e1, e2, ex};

use cov_base::Addr;
use s370_decode::Decoded;
use std::marker::Model;

/// The processor of one task (Principles of Operation, "Program Status Word", "General Registers").
#[derive(Drop)]
pub struct Cpu {
    // general registers 0 to 15, and a word that stays zero, which counts in an address that has no base or no index
    words: [u32; 17],
    /// The instruction address.
    pub ia: Addr,
    /// The condition code, 0 to 3.
    pub cc: u8,
    /// The program mask, 0 to 15: 8 enables fixed-point overflow, 4 decimal overflow.
    pub mask: u8,
}

impl Model for Cpu {
    ghost use Rattle.std.specs.Prelude.{◌≡◌, ◌≤◌, take, slice_index};
    ghost use Rattle.cov_base.specs.Meaning.{CpuView};

    ghost Value = { CpuView };

    ghost view = { λ c. record { regs = take 16 c.words; ia = c.ia; condition = c.cc; mask = c.mask } };

    ghost invariant = { λ c. (slice_index c.words 16 ≡ 0) × (c.cc ≤ 3) × (c.mask ≤ 15) };
}

#[tactic(auto, using(crate::proofs::Registers::register_word, crate::proofs::Registers::registers_first))]
impl Cpu {
    /// The processor with these general registers, 0 to 15, the instruction address, the condition code, 0 to 3, and the program
    /// mask, 0 to 15.
    pub fn new(regs: &[u32; 16], ia: Addr, cc: u8, mask: u8) -> Cpu
        requires code { cc ≤ 3 }
        requires mask { mask ≤ 15 }
        ensures { result ≡ record { regs = regs.now; ia = ia; condition = cc; mask = mask } }
    {
        let mut words = [0; 17];
        words[..16].copy_from_slice(regs);
        Cpu {
            words,
            ia,
            cc,
            mask,
        }
    }

    /// The same processor with the next instruction at that address.
    pub fn copy_at(&self, ia: Addr) -> Cpu
        ensures { result ≡ record self.now { ia = ia } }
    {
        Cpu {
            words: self.words,
            ia,
            cc: self.cc,
            mask: self.mask,
        }
    }

    /// General registers 0 to 15.
    pub fn regs(&self) -> &[u32]
        ensures registers { result.now ≡ self.now.regs }
        ensures size { length result.now ≡ 16 }
    {
        &self.words[..16]
    }

    /// Register r, which is below 16.
    pub fn reg(&self, r: u8) -> u32
        requires { r < 16 }
        ensures { result ≡ slice_index self.now.regs r }
    {
        self.words[r as usize]
    }

    /// Registers r to q, of which neither is above 15 and the first not above the last.
    pub fn some_regs(&self, r: u8, q: u8) -> &[u32]
        requires first { r ≤ q }
        requires last { q < 16 }
        ensures size { length result.now ≡ q - r + 1 }
        ensures each { (i : ℕ) → i < length result.now → slice_index result.now i ≡ slice_index self.now.regs (r + i) }
    {
        &self.regs()[r as usize..q as usize + 1]
    }

    /// Puts the word into register r, which is below 16.
    pub fn set_reg(&mut self, r: u8, v: u32)
        requires { r < 16 }
        ensures { self.new ≡ record self.old { regs = slice_set self.old.regs r v } }
    {
        self.words[r as usize] = v;
    }

    /// The 64 bits of register r, which is below 15, and the next.
    pub fn pair(&self, r: u8) -> u64
        requires { r < 15 }
        ensures { result ≡ pair self.now r }
    {
        u64::from(self.reg(r)) * 4_294_967_296 + u64::from(self.reg(r + 1))
    }

    /// Puts 64 bits into register r, which is below 15, and the next.
    pub fn set_pair(&mut self, r: u8, v: u64)
        requires { r < 15 }
        ensures { self.new ≡ record self.old { regs = with_pair self.old.regs r v } }
    {
        self.set_reg(r, (v / 4_294_967_296) as u32);
        self.set_reg(r + 1, (v % 4_294_967_296) as u32);
    }

    /// Puts the address into bits 8-31 of register r, which is below 16; bits 0-7 stay.
    pub fn set_address(&mut self, r: u8, at: Addr)
        requires { r < 16 }
        ensures { self.new ≡ record self.old { regs = with_address self.old.regs r at } }
    {
        self.set_reg(r, self.reg(r) / 16_777_216 * 16_777_216 + at.get());
    }

    /// Sets the condition code, 0 to 3.
    pub fn set_cc(&mut self, code: u8)
        requires { code ≤ 3 }
        ensures { self.new ≡ record self.old { condition = code } }
    {
        self.cc = code;
    }

    /// Sets the program mask, 0 to 15.
    pub fn set_mask(&mut self, mask: u8)
        requires { mask ≤ 15 }
        ensures { self.new ≡ record self.old { mask = mask } }
    {
        self.mask = mask;
    }

    /// The next instruction is at that address.
    pub fn go(&mut self, to: Addr)
        ensures { self.new ≡ record self.old { ia = to } }
    {
        self.ia = to;
    }

    /// The instruction address.
    pub fn at(&self) -> Addr
        ensures { result ≡ self.now.ia }
    {
        self.ia
    }

    /// The condition code, 0 to 3.
    pub fn condition(&self) -> u8
        ensures value { result ≡ self.now.condition }
        ensures below { result ≤ 3 }
    {
        self.cc
    }

    /// The program mask, 0 to 15.
    pub fn mask(&self) -> u8
        ensures value { result ≡ self.now.mask }
        ensures below { result ≤ 15 }
    {
        self.mask
    }

    /// What counts in an address for the register of a decoded base or index.
    #[inline(always)]
    fn addend(&self, register: u8) -> u32
        requires { register ≤ 16 }
        ensures { (r : ℕ) → r < 16 → register ≡ address_register r → result ≡ base self.now r }
    {
        self.words[register as usize]
    }

    /// The second operand's address in the RX format, with its index, modulo 2^24 (Principles of Operation, "Address Generation").
    #[inline(always)]
    pub fn second_indexed(&self, it: &Decoded) -> Addr
        ensures { result ≡ ex self.now it.now.code }
    {
        Addr::of(u32::from(it.displacement))
            .plus(self.addend(it.base))
            .plus(self.addend(it.index))
    }

    /// The second operand's address in the RS and SS formats.
    #[inline(always)]
    pub fn second_based(&self, it: &Decoded) -> Addr
        ensures { result ≡ e2 self.now it.now.code }
    {
        Addr::of(u32::from(it.displacement)).plus(self.addend(it.base))
    }

    /// The first operand's address in the SI and SS formats.
    #[inline(always)]
    pub fn first_based(&self, it: &Decoded) -> Addr
        ensures { result ≡ e1 self.now it.now.code }
    {
        Addr::of(u32::from(it.first_displacement)).plus(self.addend(it.first_base))
    }
}
