//! A task's space.
ghost use Rattle.std.specs.Prelude.{◌≡◌, ◌+◌, ◌*◌, Some, None, if◌then◌else◌, ◌<◌, ◌≤◌, length, All, IfOk, IsTrue, true, refl};
ghost use Rattle.cov_base.specs.Meaning.{wrap, byte_at, is_accessible, can_reach, can_store, first_touch};
ghost use Rattle.cov_base.specs.declared.limits.TheConstants.{PRIVATE_LIMIT};
ghost use Rattle.s370_state.specs.Answers.{reach_answer};
ghost use Rattle.s370_state.specs.Fields.{copied};
ghost use Rattle.s370_state.specs.Meaning.{number_at};
ghost use Rattle.module_area.specs.Images.{AreImages};
ghost use Rattle.brk_table.specs.Kept.{AreCodes, AreKept};
ghost use Rattle.brk_table.specs.Meaning.{memory_of};
ghost use Rattle.brk_table.specs.Places.{IsIn, AreSeen};
ghost use Rattle.module_area.specs.Meaning.{first_bytes};
ghost use Rattle.space_map.specs.Space.{row_of, memory_of_space, half_in_space};

use crate::bytes::{copy_bytes, first_bytes, put_all, put_bytes, put_list};
use crate::images::{image_byte, image_field, image_half, is_image, is_in_one_image};
use brk_table::Tables;
use cov_base::{Addr, NoMemory};
use module_area::{DataCard, Images};
use s370_state::{Refused, Space};
use std::alloc::Global;
use std::marker::Model;

/// What a task's addresses hold: private storage of at most X'100000' bytes from address 0 on, and the modules.
/// Contracts see the private bytes, the modules, and their places.
#[derive(Drop)]
pub struct TaskSpace<'a> {
    bytes: Vec<u8>,
    images: &'a Images,
    tables: &'a Tables,
    // some module is monitored
    monitored: bool,
}

impl<'a> Model for TaskSpace<'a> {
    ghost use Rattle.space_map.specs.Space.{SpaceView};
    ghost use Rattle.space_map.specs.Inside.{IsSpace};

    ghost Value = { SpaceView };

    ghost view = { λ s. record { bytes = s.bytes.items; images = s.images.now; places = s.tables.now.places } };

    ghost invariant = { λ s. IsSpace (record { bytes = s.bytes.items; images = s.images.now; places = s.tables.now.places }) s.monitored };
}

impl<'a> TaskSpace<'a> {
    /// The space of a task with so many bytes of private storage, at most X'100000', in which the cards' bytes stand,
    /// all within that size. The tables are those of the modules.
    pub fn new(
        alloc: Global,
        size: u32,
        cards: &[DataCard],
        images: &'a Images,
        tables: &'a Tables,
    ) -> Result<TaskSpace<'a>, NoMemory>
        requires size { size ≤ PRIVATE_LIMIT }
        requires cards { All (λ c. c.offset + length c.bytes ≤ size) cards.now }
        requires images { AreImages images.now }
        requires tables { All (IsIn images.now) tables.now.places }

        ensures size { IfOk result (λ s. length s.bytes ≡ size) }
        ensures memory { IfOk result (λ s. memory_of_space s ≡ memory_of size images.now tables.now.places) }
        ensures bytes { IfOk result (λ s. s.bytes ≡ first_bytes size cards.now) }

        // Each place is reached, and shows its original; and the instruction that is kept for it, where the tables have these.
        ensures seen { AreSeen (memory_of size images.now tables.now.places) tables.now.places }
        ensures kept { AreCodes images.now tables.now → AreKept (memory_of size images.now tables.now.places) tables.now }
    {
        let monitored = tables.len() > 0;
        let bytes = first_bytes(alloc, size, cards)?;
        Ok(TaskSpace {
            bytes,
            images,
            tables,
            monitored,
        })
    }

    /// The number of bytes of private storage.
    #[tactic(auto, using(crate::proofs::SpaceLemmas::private_filled))]
    pub fn size(&self) -> u32
        ensures value { result ≡ length self.now.bytes }
        ensures private { (memory_of_space self.now).private ≡ result }
        ensures most { result ≤ PRIVATE_LIMIT }
    {
        self.bytes.len() as u32
    }

    /// The bytes of private storage.
    pub fn bytes(&self) -> &[u8]
        ensures { result.now ≡ self.now.bytes }
    {
        &self.bytes
    }

    /// Row n of 16 bytes of private storage; the last row may be shorter.
    pub fn row(&self, n: u32) -> &[u8]
        requires { 16 * n < length self.now.bytes }
        ensures { result.now ≡ row_of self.now.bytes n }
    {
        let from = n as usize * 16;
        let rest = self.bytes.len() - from;
        &self.bytes[from..from + rest.min(16)]
    }

    // A range that ends in private storage lies in it, since addresses wrap far above it.
    #[inline(always)]
    fn is_private(&self, at: Addr, len: u32) -> bool
        ensures value { result ≡ can_store (memory_of_space self.now) at len }
        ensures reach { IsTrue result → can_reach (memory_of_space self.now) at len ≡ true }
        ensures touch { IsTrue result → first_touch (memory_of_space self.now) at len ≡ None }
        ensures inside { IsTrue result → 0 < len → at + len ≤ length self.now.bytes }
    {
        len == 0 || u64::from(at.get()) + u64::from(len) <= self.bytes.len() as u64
    }

    #[tactic(auto, unfolding(brk_table::specs::Meaning::memory_of, cov_base::specs::Meaning::is_accessible))]
    fn is_accessible(&self, at: Addr) -> bool
        ensures { result ≡ is_accessible (memory_of_space self.now) at }
    {
        (at.get() as usize) < self.bytes.len() || is_image(self.images, at.get())
    }

    // All bytes are accessible, of which some needn't be private.
    #[inline(never)]
    fn is_reached(&self, at: Addr, len: u32) -> bool
        ensures { result ≡ can_reach (memory_of_space self.now) at len }
    {
        if is_in_one_image(self.images, at.get(), len) {
            return true;
        }
        match self.reach_bytes(at, len) {
            Ok(()) => true,
            Err(_) => false,
        }
    }

    // A word that doesn't lie in private storage, byte by byte.
    #[inline(never)]
    #[tactic(auto, using(s370_state::proofs::Laws::word_of_bytes, s370_state::proofs::Laws::reach_at))]
    fn word_by_bytes(&self, at: Addr) -> u32
        requires { can_reach (memory_of_space self.now) at 4 ≡ true }
        ensures { result ≡ number_at (memory_of_space self.now) self.now.bytes at 4 }
    {
        u32::from_be_bytes([
            self.byte(at.plus(0)),
            self.byte(at.plus(1)),
            self.byte(at.plus(2)),
            self.byte(at.plus(3)),
        ])
    }

    // A copy whose source stands neither in private storage nor in one module.
    #[cold]
    #[inline(never)]
    #[tactic(auto, using(s370_state::proofs::Laws::copied_none, s370_state::proofs::Laws::copied_more, s370_state::proofs::Laws::reach_at, s370_state::proofs::Laws::store_at))]
    fn copy_by_bytes(&mut self, to: Addr, from: Addr, len: u32)
        requires store { can_store (memory_of_space self.old) to len ≡ true }
        requires reach { can_reach (memory_of_space self.old) from len ≡ true }
        ensures memory { memory_of_space self.new ≡ memory_of_space self.old }
        ensures bytes { self.new.bytes ≡ copied (memory_of_space self.old) self.old.bytes to from len }
    {
        for i in 0..len {
            let byte = self.byte(from.plus(i));
            self.put(to.plus(i), byte);
        }
    }

    // A halfword byte by byte. It is rare, and kept out of the task's loop.
    #[cold]
    #[inline(never)]
    #[tactic(auto, using(s370_state::proofs::Laws::reach_two, s370_state::proofs::Laws::answer_ok))]
    fn half_by_bytes(&self, at: Addr) -> Option<u16>
        ensures { result ≡ (if can_reach (memory_of_space self.now) at 2 then Some (half_in_space self.now at) else None) }
    {
        match self.can_reach(at, 2) {
            Ok(()) => Some(
                u16::from(self.byte(at.plus(0))) * 256 + u16::from(self.byte(at.plus(1))),
            ),
            Err(_) => None,
        }
    }

    #[tactic(auto, using(s370_state::proofs::Laws::reach_none, s370_state::proofs::Laws::reach_more, s370_state::proofs::Laws::reach_fails))]
    fn reach_bytes(&self, at: Addr, len: u32) -> Result<(), Refused>
        ensures { result ≡ reach_answer (memory_of_space self.now) at len }
    {
        for i in 0..len {
            if !self.is_accessible(at.plus(i)) {
                return Err(Refused::Addressing);
            }
        }
        Ok(())
    }

    #[inline(never)]
    #[tactic(auto, using(s370_state::proofs::Laws::touch_none, s370_state::proofs::Laws::touch_more, s370_state::proofs::Laws::touch_found))]
    fn read_bytes(&self, at: Addr, len: u32) -> Option<Addr>
        ensures { result ≡ first_touch (memory_of_space self.now) at len }
    {
        for i in 0..len {
            if self.is_next_touch(at, i) {
                return Some(at.plus(i));
            }
        }
        None
    }

    #[inline(always)]
    fn is_touch(&self, at: Addr) -> bool
        ensures { result ≡ (memory_of_space self.now).is_touch at }
    {
        self.monitored && self.tables.at(Addr::of(at.get() - at.get() % 2)).is_some()
    }

    // Byte i of a range whose bytes before it are none: an odd one was judged with the byte before it.
    fn is_next_touch(&self, at: Addr, i: u32) -> bool
        requires { first_touch (memory_of_space self.now) at i ≡ None }
        ensures { result ≡ (memory_of_space self.now).is_touch (wrap (at + i)) }
    {
        if !self.monitored {
            return false;
        }
        let a = at.plus(i);
        if i > 0 && a.get() % 2 == 1 {
            false
        } else {
            self.is_touch(a)
        }
    }
}

#[tactic(auto, using(s370_state::proofs::Laws::reach_two, s370_state::proofs::Laws::answer_ok))]
impl<'a> Space for TaskSpace<'a> {
    ghost memory = { λ s. memory_of_space s };

    ghost bytes = { λ s. s.bytes };

    #[inline(always)]
    fn half(&self, at: Addr) -> Result<u16, Refused> {
        let h = self.first(at)?;
        if self.is_touch(at) {
            Err(Refused::Touch(at))
        } else {
            Ok(h)
        }
    }

    #[inline(always)]
    fn first(&self, at: Addr) -> Result<u16, Refused> {
        if let Some(h) = image_half(self.images, at.get()) {
            return Ok(h);
        }
        match self.half_by_bytes(at) {
            Some(h) => Ok(h),
            None => Err(Refused::Addressing),
        }
    }

    #[inline(always)]
    fn can_reach(&self, at: Addr, len: u32) -> Result<(), Refused> {
        if self.is_private(at, len) || self.is_reached(at, len) {
            Ok(())
        } else {
            Err(Refused::Addressing)
        }
    }

    #[inline(always)]
    fn can_store(&self, at: Addr, len: u32) -> Result<(), Refused> {
        if self.is_private(at, len) {
            Ok(())
        } else {
            Err(Refused::Protection)
        }
    }

    #[inline(always)]
    fn can_read(&self, at: Addr, len: u32) -> Result<(), Refused> {
        if self.is_private(at, len) {
            return Ok(());
        }
        match self.read_bytes(at, len) {
            Some(a) => Err(Refused::Touch(a)),
            None => Ok(()),
        }
    }

    #[inline(always)]
    fn is_own(&self, at: Addr, len: u32) -> bool {
        self.is_private(at, len)
    }

    #[inline(always)]
    #[tactic(auto, unfolding(brk_table::specs::Meaning::memory_of, cov_base::specs::Meaning::byte_at, cov_base::specs::Meaning::is_accessible))]
    fn byte(&self, at: Addr) -> u8 {
        if (at.get() as usize) < self.bytes.len() {
            self.bytes[at.get() as usize]
        } else {
            image_byte(self.images, at.get())
        }
    }

    #[inline(always)]
    #[tactic(auto, using(crate::proofs::SpaceLemmas::word_in))]
    fn word(&self, at: Addr) -> u32 {
        if self.is_private(at, 4) {
            let a = at.get() as usize;
            u32::from_be_bytes([
                self.bytes[a],
                self.bytes[a + 1],
                self.bytes[a + 2],
                self.bytes[a + 3],
            ])
        } else {
            self.word_by_bytes(at)
        }
    }

    #[tactic(auto, unfolding(brk_table::specs::Meaning::memory_of, cov_base::specs::Meaning::is_private))]
    fn put(&mut self, at: Addr, value: u8) {
        self.bytes[at.get() as usize] = value;
    }

    #[inline(always)]
    #[tactic(auto, using(crate::proofs::SpaceLemmas::word_put, crate::proofs::SpaceLemmas::within))]
    fn put_word(&mut self, at: Addr, value: u32) {
        put_bytes(self.bytes.as_mut_slice(), at.get() as usize, value);
    }

    #[inline(always)]
    fn slice(&self, at: Addr, len: u32) -> Option<&[u8]> {
        let (a, n) = (at.get() as usize, len as usize);
        if a + n <= self.bytes.len() {
            return Some(&self.bytes[a..a + n]);
        }
        match image_field(self.images, at.get(), len) {
            Some(list) => Some(list),
            None => None,
        }
    }

    #[inline(always)]
    fn put_words(&mut self, at: Addr, from: &[u32]) {
        put_all(self.bytes.as_mut_slice(), at.get() as usize, from);
    }

    #[inline(always)]
    fn put_slice(&mut self, at: Addr, from: &[u8]) {
        put_list(self.bytes.as_mut_slice(), at.get() as usize, from);
    }

    #[inline(always)]
    fn copy(&mut self, to: Addr, from: Addr, len: u32) {
        let images = self.images;
        let (a, b, n) = (to.get() as usize, from.get() as usize, len as usize);
        if b + n <= self.bytes.len() {
            copy_bytes(self.bytes.as_mut_slice(), a, b, n);
        } else if let Some(list) = image_field(images, from.get(), len) {
            put_list(self.bytes.as_mut_slice(), a, list);
        } else {
            self.copy_by_bytes(to, from, len);
        }
    }

    ghost filled = { λ s. unfold memory_of in refl };
}
