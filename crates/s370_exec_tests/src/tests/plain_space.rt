//! A task's storage over vectors.
ghost use Rattle.std.specs.Prelude.{◌≡◌, ◌+◌, ◌*◌, ◌<◌, ◌^◌, vec_len, length, nat_lt, nat_le, ◌&&◌, ◌==◌};
ghost use Rattle.cov_base.specs.Meaning.{is_accessible, is_private, can_reach, can_store, byte_at};
ghost use Rattle.s370_exec_tests.specs.Plain.{memory_of};

use cov_base::Addr;
use s370_state::{Refused, Space};

/// Storage with at most one module, byte by byte.
/// A call takes time by the number of touch bytes too.
#[derive(Drop)]
pub struct PlainSpace {
    /// The number of private bytes.
    pub size: u32,
    /// The private bytes, from address 0 on.
    pub bytes: Vec<u8>,
    /// The address of the module's first byte. Where private storage reaches over it, the private byte stands.
    pub base: u32,
    /// The module's bytes.
    pub image: Vec<u8>,
    /// The addresses of the touch bytes.
    pub touches: Vec<u32>,
    ghost in_size: { length bytes.items ≡ size },
    ghost small: { base + vec_len image < 2 ^ 32 },
}

#[tactic(auto, unfolding(crate::specs::Plain::memory_of, cov_base::specs::Meaning::is_accessible, cov_base::specs::Meaning::is_private), using(s370_state::proofs::Laws::reach_none, s370_state::proofs::Laws::reach_more, s370_state::proofs::Laws::reach_fails, crate::proofs::Ranges::store_none, crate::proofs::Ranges::store_more, s370_state::proofs::Laws::store_fails, s370_state::proofs::Laws::touch_none, s370_state::proofs::Laws::touch_more, s370_state::proofs::Laws::touch_found))]
impl PlainSpace {
    fn is_private(&self, at: Addr) -> bool
        ensures { result ≡ is_private (memory_of self.now.size self.now.base self.now.image.items self.now.touches.items) at }
    {
        at.get() < self.size
    }

    fn is_image(&self, at: Addr) -> bool
        ensures { result ≡ (nat_le self.now.base at && nat_lt at (self.now.base + length self.now.image.items)) }
    {
        self.base <= at.get() && at.get() < self.base + self.image.len() as u32
    }

    fn is_accessible(&self, at: Addr) -> bool
        ensures { let s = self.now in result ≡ is_accessible (memory_of s.size s.base s.image.items s.touches.items) at }
    {
        self.is_private(at) || self.is_image(at)
    }

    fn is_touch(&self, at: Addr) -> bool
        ensures { result ≡ (memory_of self.now.size self.now.base self.now.image.items self.now.touches.items).is_touch at }
    {
        let a = at.get();
        self.touches.iter().any(|t| *t == a)
    }
}

#[tactic(auto, using(s370_state::proofs::Laws::reach_two, s370_state::proofs::Laws::answer_ok, s370_state::proofs::Laws::reach_none, s370_state::proofs::Laws::reach_more, s370_state::proofs::Laws::reach_fails, crate::proofs::Ranges::store_none, crate::proofs::Ranges::store_more, s370_state::proofs::Laws::store_fails, s370_state::proofs::Laws::touch_none, s370_state::proofs::Laws::touch_more, s370_state::proofs::Laws::touch_found))]
impl Space for PlainSpace {
    ghost memory = { λ s. memory_of s.size s.base s.image.items s.touches.items };

    ghost bytes = { λ s. s.bytes.items };

    fn half(&self, at: Addr) -> Result<u16, Refused> {
        match self.can_reach(at, 2) {
            Ok(()) => {
                if self.is_touch(at) {
                    Err(Refused::Touch(at))
                } else {
                    Ok(u16::from(self.byte(at.plus(0))) * 256 + u16::from(self.byte(at.plus(1))))
                }
            }
            Err(_) => Err(Refused::Addressing),
        }
    }

    fn first(&self, at: Addr) -> Result<u16, Refused> {
        match self.can_reach(at, 2) {
            Ok(()) => Ok(u16::from(self.byte(at.plus(0))) * 256 + u16::from(self.byte(at.plus(1)))),
            Err(_) => Err(Refused::Addressing),
        }
    }

    fn can_reach(&self, at: Addr, len: u32) -> Result<(), Refused> {
        for i in 0..len {
            if !self.is_accessible(at.plus(i)) {
                return Err(Refused::Addressing);
            }
        }
        Ok(())
    }

    fn can_store(&self, at: Addr, len: u32) -> Result<(), Refused> {
        for i in 0..len {
            if !self.is_private(at.plus(i)) {
                return Err(Refused::Protection);
            }
        }
        Ok(())
    }

    fn can_read(&self, at: Addr, len: u32) -> Result<(), Refused> {
        for i in 0..len {
            let a = at.plus(i);
            if self.is_touch(a) {
                return Err(Refused::Touch(a));
            }
        }
        Ok(())
    }

    fn is_own(&self, at: Addr, len: u32) -> bool {
        match self.can_reach(at, len) {
            Ok(()) => match self.can_store(at, len) {
                Ok(()) => self.can_read(at, len).is_ok(),
                Err(_) => false,
            },
            Err(_) => false,
        }
    }

    #[tactic(auto, unfolding(crate::specs::Plain::memory_of, cov_base::specs::Meaning::byte_at, cov_base::specs::Meaning::is_accessible, cov_base::specs::Meaning::is_private))]
    fn byte(&self, at: Addr) -> u8 {
        if self.is_private(at) {
            self.bytes[at.get() as usize]
        } else {
            self.image[(at.get() - self.base) as usize]
        }
    }

    #[tactic(auto, using(s370_state::proofs::Laws::word_of_bytes, s370_state::proofs::Laws::reach_at))]
    fn word(&self, at: Addr) -> u32 {
        u32::from_be_bytes([
            self.byte(at.plus(0)),
            self.byte(at.plus(1)),
            self.byte(at.plus(2)),
            self.byte(at.plus(3)),
        ])
    }

    #[tactic(auto, unfolding(crate::specs::Plain::memory_of, cov_base::specs::Meaning::byte_at, cov_base::specs::Meaning::is_accessible, cov_base::specs::Meaning::is_private))]
    fn put(&mut self, at: Addr, value: u8) {
        self.bytes[at.get() as usize] = value;
    }

    #[tactic(auto, using(s370_state::proofs::Laws::word_stored, s370_state::proofs::Laws::store_at))]
    fn put_word(&mut self, at: Addr, value: u32) {
        self.put(at.plus(3), (value % 256) as u8);
        self.put(at.plus(2), (value / 256 % 256) as u8);
        self.put(at.plus(1), (value / 65_536 % 256) as u8);
        self.put(at.plus(0), (value / 16_777_216) as u8);
    }

    #[tactic(auto, using(s370_state::proofs::Laws::no_words, s370_state::proofs::Laws::more_words, s370_state::proofs::Laws::store_part, s370_state::proofs::Laws::store_wrapped))]
    fn put_words(&mut self, at: Addr, from: &[u32]) {
        for i in 0..from.len() {
            self.put_word(at.plus(4 * i as u32), from[i]);
        }
    }

    fn slice(&self, at: Addr, len: u32) -> Option<&[u8]> {
        let (a, n) = (at.get() as usize, len as usize);
        if a + n <= self.bytes.len() && a + n <= 16_777_216 {
            Some(&self.bytes[a..a + n])
        } else {
            None
        }
    }

    #[tactic(auto, using(s370_state::proofs::Laws::none_stored, s370_state::proofs::Laws::one_stored, s370_state::proofs::Laws::all_stored, s370_state::proofs::Laws::store_at))]
    fn put_slice(&mut self, at: Addr, from: &[u8]) {
        for i in 0..from.len() {
            self.put(at.plus(i as u32), from[i]);
        }
    }

    #[tactic(auto, using(s370_state::proofs::Laws::copied_none, s370_state::proofs::Laws::copied_more, s370_state::proofs::Laws::reach_at, s370_state::proofs::Laws::store_at))]
    fn copy(&mut self, to: Addr, from: Addr, len: u32) {
        for i in 0..len {
            let byte = self.byte(from.plus(i));
            self.put(to.plus(i), byte);
        }
    }

    ghost filled = { λ s. unfold memory_of in s.in_size };
}
