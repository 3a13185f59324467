//! What stands at a place.

/// The tag says who planted the place: 0 nobody, 2s-1 session s, 2s that session s is over. The halfword is the
/// original or the breakpoint.
#[derive(Clone, Copy)]
pub struct Cell {
    pub tag: u32,
    pub half: u16,
}
