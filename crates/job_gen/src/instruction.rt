//! The instructions of a generated module.

/// An operation, named as its mnemonic.
#[derive(Clone, Copy)]
pub(crate) enum Operation {
    La,
    Ar,
    Ltr,
    Bc,
    Lcr,
    St,
    Bct,
    Br,
}

/// An instruction of one halfword or of two.
#[derive(Clone, Copy)]
pub(crate) struct Instruction {
    pub operation: Operation,
    pub first: u16,
    pub second: Option<u16>,
}
