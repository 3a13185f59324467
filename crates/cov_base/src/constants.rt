//! Numbers that several crates cite.

/// The breakpoint's halfword: SVC 255, which ORing by EX cannot change.
pub const BREAKPOINT: u16 = 0x0AFF;

/// The most bytes of input, and so the most lines of a listing.
pub const INPUT_LIMIT: usize = 16_777_216;

/// The instruction address at which a task returns, which register 14 holds as it begins, unless a REG card gives another.
pub const RETURN_ADDRESS: u32 = 0xFF_FFFE;
