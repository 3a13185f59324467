//! Addresses of 24 bits (Principles of Operation, "Storage Addressing").
ghost use Rattle.std.specs.Prelude.{⊤, ◌≡◌, ℕ, ◌+◌, ◌%◌, ◌<◌, ◌^◌, Some, None, if◌then◌else◌, nat_lt};
ghost use Rattle.cov_base.specs.Meaning.{wrap};

use std::alloc::AllocError;
use std::marker::Model;

/// An address from 0 to 2^24 - 1.
pub struct Addr(u32);

impl Model for Addr {
    ghost Value = { ℕ };

    ghost view = { λ a. a.0 };

    ghost invariant = { λ a. a.0 < 16777216 };

    ghost inverse = { λ n. record { 0 = n } };
}

impl Clone for Addr {
    ghost is_clone = { λ x y. y ≡ x };

    ghost is_infallible = { λ _. ⊤ };

    fn clone(&self) -> Result<Self, AllocError> {
        Ok(*self)
    }
}

impl Copy for Addr {}

impl Addr {
    /// The address of that number; none where the number is 2^24 or more.
    pub fn new(v: u32) -> Option<Addr>
        ensures { result ≡ (if nat_lt v 16777216 then Some v else None) }
    {
        if v < 16_777_216 { Some(Addr(v)) } else { None }
    }

    /// The low 24 bits of the number.
    pub fn of(v: u32) -> Addr
        ensures { result ≡ wrap v }
    {
        Addr(v % 16_777_216)
    }

    /// The address so many bytes further on, modulo 2^24.
    pub fn plus(self, n: u32) -> Addr
        ensures { result ≡ wrap (self + n) }
    {
        Addr((self.0 + n % 16_777_216) % 16_777_216)
    }

    /// The number of the address.
    pub fn get(self) -> u32
        ensures value { result ≡ self }
        ensures below { result < 16777216 }
    {
        self.0
    }
}
