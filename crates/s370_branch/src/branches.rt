//! Branches (Principles of Operation, "General Instructions", "Branching").
ghost use Rattle.std.specs.Prelude.{◌≡◌, Some, ◌⊎◌, ℕ, ◌+◌, ◌*◌, ◌%◌, ◌<◌, ◌≤◌, true, ◌&&◌, ◌==◌, if◌then◌else◌};
ghost use Rattle.s370_state.specs.Meaning.{signed};
ghost use Rattle.s370_decode.specs.Meaning.{first_half, op_of};
ghost use Rattle.s370_decode.specs.Groups.{group_of};
ghost use Rattle.s370_branch.specs.Meaning.{is_selected, less_one, index_sum, comparand, is_high, goes, by_register, with_first, link_word, branched};

use cov_base::Addr;
use s370_decode::{Code, Decoded, Group, Op, op_of};
use s370_state::{Cpu, signed};

/// Whether the mask selects the condition code: its bits 8, 4, 2 and 1 are for the codes 0 to 3. Without a branch of
/// the host's, which it would foresee ill, and in a few of its instructions.
fn is_selected(mask: u8, code: u8) -> bool
    requires mask { mask < 16 }
    requires code { code ≤ 3 }
    ensures { result ≡ is_selected mask code }
{
    (mask << code) / 8 % 2 == 1
}

/// R1 less 1: what is left of a count.
fn less_one(cpu: &Cpu, code: &Code) -> u32
    ensures { result ≡ less_one cpu.now code.now }
{
    cpu.reg(code.r1()).wrapping_sub(1)
}

/// R1 plus the increment.
fn index_sum(cpu: &Cpu, code: &Code) -> u32
    ensures { result ≡ index_sum cpu.now code.now }
{
    cpu.reg(code.r1()).wrapping_add(cpu.reg(code.r2()))
}

/// What the sum is compared with, where no register has changed yet.
fn comparand(cpu: &Cpu, code: &Code) -> u32
    ensures { result ≡ comparand cpu.now code.now }
{
    let r3 = code.r2();
    if r3 % 2 == 1 {
        cpu.reg(r3)
    } else {
        cpu.reg(r3 + 1)
    }
}

fn is_high(cpu: &Cpu, code: &Code) -> bool
    ensures { result ≡ is_high cpu.now code.now }
{
    signed(comparand(cpu, code)) < signed(index_sum(cpu, code))
}

/// Whether the operation on these fields branches; false for an operation that is no branch. Changes nothing.
#[inline(always)]
#[tactic(auto, unfolding(crate::specs::Meaning::goes))]
fn goes(cpu: &Cpu, code: &Code, op: Op) -> bool
    ensures { result ≡ goes op cpu.now code.now }
{
    match op {
        Op::BC => is_selected(code.r1(), cpu.condition()),
        Op::BCR => code.r2() != 0 && is_selected(code.r1(), cpu.condition()),
        Op::BCT => less_one(cpu, code) != 0,
        Op::BCTR => code.r2() != 0 && less_one(cpu, code) != 0,
        Op::BAL => true,
        Op::BALR => code.r2() != 0,
        Op::BAS => true,
        Op::BASR => code.r2() != 0,
        Op::BXH => is_high(cpu, code),
        Op::BXLE => !is_high(cpu, code),
        _ => false,
    }
}

/// Whether it branches, in a frame of its own.
#[inline(never)]
fn goes_apart(cpu: &Cpu, code: &Code, op: Op) -> bool
    ensures { result ≡ goes op cpu.now code.now }
{
    goes(cpu, code, op)
}

/// Whether the instruction as given branches; false for an operation that is no branch. Changes nothing.
#[inline(always)]
pub fn outcome(cpu: &Cpu, code: &Code) -> bool
    ensures { result ≡ goes (op_of (first_half code.now)) cpu.now code.now }
{
    let half = code.first_half();
    // The frequent ones are found by tests, with no load from a table: a jump by one would be foreseen worse.
    match half / 256 {
        0x47 => goes(cpu, code, Op::BC),
        0x46 => goes(cpu, code, Op::BCT),
        _ => goes_apart(cpu, code, op_of(half)),
    }
}

/// Bits 8-31 of R2.
fn by_register(cpu: &Cpu, it: &Decoded) -> Addr
    ensures { result ≡ by_register cpu.now it.now.code }
{
    Addr::of(cpu.reg(it.second))
}

/// The word that BAL and BALR leave: length code, condition code, program mask and updated address.
fn link_word(cpu: &Cpu, next: Addr, link: u8) -> u32
    requires { link ≤ 2 }
    ensures { result ≡ link_word cpu.now next link }
{
    let length = u32::from(link) * 1_073_741_824;
    let condition = u32::from(cpu.condition()) * 268_435_456;
    let mask = u32::from(cpu.mask()) * 16_777_216;
    length + condition + mask + next.get()
}

/// What is left of the count of a BCT or BCTR: R1 less 1.
#[inline(always)]
pub fn count_left(cpu: &Cpu, it: &Decoded) -> u32
    ensures { result ≡ less_one cpu.now it.now.code }
{
    cpu.reg(it.first).wrapping_sub(1)
}

/// Whether a BC branches: its mask selects the condition code.
#[inline(always)]
#[tactic(auto, unfolding(crate::specs::Meaning::goes))]
pub fn condition_goes(cpu: &Cpu, it: &Decoded) -> bool
    ensures { result ≡ goes Op.BC cpu.now it.now.code }
{
    is_selected(it.first, cpu.condition())
}

/// BC: branches where the mask selects the condition code.
#[inline(always)]
pub fn branch_on_condition(cpu: &mut Cpu, it: &Decoded, next: Addr)
    ensures { (link : ℕ) → Some cpu.new ≡ branched Op.BC cpu.old it.now.code next link }
{
    let went = condition_goes(cpu, it);
    go_on_condition(cpu, it, next, went);
}

/// BC, where it is known whether it branches.
#[inline(always)]
#[tactic(auto, unfolding(crate::specs::Meaning::goes))]
pub fn go_on_condition(cpu: &mut Cpu, it: &Decoded, next: Addr, went: bool)
    requires { went ≡ goes Op.BC cpu.old it.now.code }
    ensures { (link : ℕ) → Some cpu.new ≡ branched Op.BC cpu.old it.now.code next link }
{
    let to = if went { cpu.second_indexed(it) } else { next };
    cpu.go(to);
}

/// BCR: branches to R2 where the mask selects the condition code and R2 is not 0.
#[inline(always)]
#[tactic(auto, unfolding(crate::specs::Meaning::goes))]
pub fn branch_on_condition_register(cpu: &mut Cpu, it: &Decoded, next: Addr)
    ensures { (link : ℕ) → Some cpu.new ≡ branched Op.BCR cpu.old it.now.code next link }
{
    let to = if it.second != 0 && is_selected(it.first, cpu.condition()) {
        by_register(cpu, it)
    } else {
        next
    };
    cpu.go(to);
}

/// Leaves what is left of the count in R1 and goes to the address.
fn count_and_go(cpu: &mut Cpu, it: &Decoded, left: u32, to: Addr)
    ensures { cpu.new ≡ record cpu.old { regs = with_first cpu.old it.now.code left; ia = to } }
{
    cpu.set_reg(it.first, left);
    cpu.go(to);
}

/// BCT: takes 1 from R1 and branches unless 0 is left.
#[inline(always)]
pub fn branch_on_count(cpu: &mut Cpu, it: &Decoded, next: Addr)
    ensures { (link : ℕ) → Some cpu.new ≡ branched Op.BCT cpu.old it.now.code next link }
{
    let left = count_left(cpu, it);
    go_on_count(cpu, it, next, left);
}

/// BCT, where it is known what is left of the count.
#[inline(always)]
#[tactic(auto, unfolding(crate::specs::Meaning::goes))]
pub fn go_on_count(cpu: &mut Cpu, it: &Decoded, next: Addr, left: u32)
    requires { left ≡ less_one cpu.old it.now.code }
    ensures { (link : ℕ) → Some cpu.new ≡ branched Op.BCT cpu.old it.now.code next link }
{
    let to = if left != 0 {
        cpu.second_indexed(it)
    } else {
        next
    };
    count_and_go(cpu, it, left, to);
}

/// BCTR: takes 1 from R1 and branches to R2, as it was, unless 0 is left or R2 is 0.
#[inline(always)]
#[tactic(auto, unfolding(crate::specs::Meaning::goes))]
pub fn branch_on_count_register(cpu: &mut Cpu, it: &Decoded, next: Addr)
    ensures { (link : ℕ) → Some cpu.new ≡ branched Op.BCTR cpu.old it.now.code next link }
{
    let left = count_left(cpu, it);
    let to = if it.second != 0 && left != 0 {
        by_register(cpu, it)
    } else {
        next
    };
    count_and_go(cpu, it, left, to);
}

/// Leaves the link word in R1 and goes to the address.
fn link_to(cpu: &mut Cpu, it: &Decoded, to: Addr, next: Addr, link: u8)
    requires { link ≤ 2 }
    ensures { cpu.new ≡ record cpu.old { regs = with_first cpu.old it.now.code (link_word cpu.old next link); ia = to } }
{
    cpu.set_reg(it.first, link_word(cpu, next, link));
    cpu.go(to);
}

/// BAL: leaves the link word in R1 and branches.
#[inline(always)]
#[tactic(auto, unfolding(crate::specs::Meaning::goes))]
pub fn branch_and_link(cpu: &mut Cpu, it: &Decoded, next: Addr, link: u8)
    requires { link ≤ 2 }
    ensures { Some cpu.new ≡ branched Op.BAL cpu.old it.now.code next link }
{
    let to = cpu.second_indexed(it);
    link_to(cpu, it, to, next, link);
}

/// BALR: leaves the link word in R1 and branches to R2, as it was, unless R2 is 0.
#[inline(always)]
#[tactic(auto, unfolding(crate::specs::Meaning::goes))]
pub fn branch_and_link_register(cpu: &mut Cpu, it: &Decoded, next: Addr, link: u8)
    requires { link ≤ 2 }
    ensures { Some cpu.new ≡ branched Op.BALR cpu.old it.now.code next link }
{
    let to = if it.second != 0 {
        by_register(cpu, it)
    } else {
        next
    };
    link_to(cpu, it, to, next, link);
}

/// Leaves the updated address in R1 and goes to the address.
fn save_and_go(cpu: &mut Cpu, it: &Decoded, to: Addr, next: Addr)
    ensures { cpu.new ≡ record cpu.old { regs = with_first cpu.old it.now.code next; ia = to } }
{
    cpu.set_reg(it.first, next.get());
    cpu.go(to);
}

/// BAS: leaves the updated address in R1 and branches.
#[inline(always)]
#[tactic(auto, unfolding(crate::specs::Meaning::goes))]
fn branch_and_save(cpu: &mut Cpu, it: &Decoded, next: Addr)
    ensures { (link : ℕ) → Some cpu.new ≡ branched Op.BAS cpu.old it.now.code next link }
{
    let to = cpu.second_indexed(it);
    save_and_go(cpu, it, to, next);
}

/// BASR: leaves the updated address in R1 and branches to R2, as it was, unless R2 is 0.
#[inline(always)]
#[tactic(auto, unfolding(crate::specs::Meaning::goes))]
fn branch_and_save_register(cpu: &mut Cpu, it: &Decoded, next: Addr)
    ensures { (link : ℕ) → Some cpu.new ≡ branched Op.BASR cpu.old it.now.code next link }
{
    let to = if it.second != 0 {
        by_register(cpu, it)
    } else {
        next
    };
    save_and_go(cpu, it, to, next);
}

/// BXH and BXLE: adds the increment to R1, and branches as the comparison with the sum says.
#[inline(always)]
#[tactic(auto, unfolding(crate::specs::Meaning::goes))]
fn branch_on_index(cpu: &mut Cpu, it: &Decoded, next: Addr)
    requires { (it.now.op ≡ Op.BXH) ⊎ (it.now.op ≡ Op.BXLE) }
    ensures { (link : ℕ) → Some cpu.new ≡ branched it.now.op cpu.old it.now.code next link }
{
    let to = if goes(cpu, &it.code, it.op) {
        cpu.second_based(it)
    } else {
        next
    };
    cpu.set_reg(it.first, index_sum(cpu, &it.code));
    cpu.go(to);
}

/// Performs a branch: BC BCR BCT BCTR BAL BALR BAS BASR BXH BXLE (Principles of Operation, "General Instructions").
/// The instruction address becomes the branch address where the instruction branches, else `next`, the updated
/// address; `link` is the length code that BAL and BALR leave: 1 for two bytes, 2 for four bytes and under EX. A branch
/// has no test and no interruption, also where it goes to an odd address. Takes no memory.
#[inline(always)]
pub fn branch(cpu: &mut Cpu, it: &Decoded, next: Addr, link: u8)
    requires group { group_of it.now.op ≡ Group.Branch }
    requires link { link ≤ 2 }
    ensures { Some cpu.new ≡ branched it.now.op cpu.old it.now.code next link }
{
    match it.op {
        Op::BC => branch_on_condition(cpu, it, next),
        Op::BCR => branch_on_condition_register(cpu, it, next),
        Op::BCT => branch_on_count(cpu, it, next),
        Op::BCTR => branch_on_count_register(cpu, it, next),
        Op::BAL => branch_and_link(cpu, it, next, link),
        Op::BALR => branch_and_link_register(cpu, it, next, link),
        Op::BAS => branch_and_save(cpu, it, next),
        Op::BASR => branch_and_save_register(cpu, it, next),
        _ => branch_on_index(cpu, it, next),
    }
}
