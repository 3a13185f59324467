//! The bytes that private storage begins with, and stores and copies that lie in it whole.
ghost use Rattle.std.specs.Prelude.{◌≡◌, ◌+◌, ◌*◌, ◌<◌, ◌≤◌, length, All, IfOk};
ghost use Rattle.cov_base.specs.Meaning.{Memory};
ghost use Rattle.s370_state.specs.Fields.{copied, words_stored};
ghost use Rattle.s370_state.specs.Meaning.{store_number, store_bytes};
ghost use Rattle.module_area.specs.Meaning.{with_card, first_bytes};

use cov_base::PRIVATE_LIMIT;
use module_area::DataCard;
use std::alloc::{AllocError, Global};

/// Stores a card's bytes.
fn store_card(bytes: &mut Vec<u8>, card: &DataCard)
    requires { card.now.offset + length card.now.bytes ≤ length bytes.old.items }
    ensures value { bytes.new.items ≡ with_card bytes.old.items card.now }
    ensures filled { length bytes.new.items ≡ length bytes.old.items }
{
    let from = card.offset as usize;
    bytes[from..from + card.bytes.len()].copy_from_slice(&card.bytes);
}

/// Zeros, with each card's bytes stored in the order of the cards.
pub fn first_bytes(alloc: Global, size: u32, cards: &[DataCard]) -> Result<Vec<u8>, AllocError>
    requires { All (λ c. c.offset + length c.bytes ≤ size) cards.now }
    ensures value { IfOk result (λ b. b.items ≡ first_bytes size cards.now) }
    ensures size { IfOk result (λ b. length b.items ≡ size) }
{
    let mut bytes = vec![in alloc; 0u8; size as usize]?;
    for card in cards {
        store_card(&mut bytes, card);
    }
    Ok(bytes)
}

/// Stores a word's four bytes. They are those of one slice, so that they are stored at once.
#[inline(always)]
#[tactic(auto, using(crate::proofs::SpaceLemmas::set_length))]
pub fn put_bytes(bytes: &mut [u8], a: usize, value: u32)
    requires inside { a + 4 ≤ length bytes.old }
    requires most { length bytes.old ≤ PRIVATE_LIMIT }
    ensures value { bytes.new ≡ store_number bytes.old a 4 value }
    ensures filled { length bytes.new ≡ length bytes.old }
{
    bytes[a + 3] = (value % 256) as u8;
    bytes[a + 2] = (value / 256 % 256) as u8;
    bytes[a + 1] = (value / 65_536 % 256) as u8;
    bytes[a] = (value / 16_777_216) as u8;
}

/// Stores the bytes of words.
#[inline(always)]
#[tactic(auto, using(s370_state::proofs::Laws::no_words, s370_state::proofs::Laws::more_words))]
pub fn put_all(bytes: &mut [u8], a: usize, words: &[u32])
    requires inside { 0 < length words.now → a + 4 * length words.now ≤ length bytes.old }
    requires most { length bytes.old ≤ PRIVATE_LIMIT }
    ensures value { bytes.new ≡ words_stored bytes.old a words.now (length words.now) }
    ensures filled { length bytes.new ≡ length bytes.old }
{
    for i in 0..words.len() {
        put_bytes(bytes, a + 4 * i, words[i]);
    }
}

/// Stores the bytes of a list.
#[inline(always)]
#[tactic(auto, using(s370_state::proofs::Laws::none_stored, s370_state::proofs::Laws::all_stored))]
pub fn put_list(bytes: &mut [u8], a: usize, list: &[u8])
    requires inside { 0 < length list.now → a + length list.now ≤ length bytes.old }
    requires most { length bytes.old ≤ PRIVATE_LIMIT }
    ensures value { bytes.new ≡ store_bytes bytes.old a list.now }
    ensures filled { length bytes.new ≡ length bytes.old }
{
    for i in 0..list.len() {
        bytes[a + i] = list[i];
    }
}

/// Copies n bytes, one at a time and left to right.
#[inline(always)]
#[tactic(auto, using(s370_state::proofs::Laws::copied_none))]
pub fn copy_bytes(bytes: &mut [u8], a: usize, b: usize, n: usize)
    requires to { 0 < n → a + n ≤ length bytes.old }
    requires from { b + n ≤ length bytes.old }
    requires most { length bytes.old ≤ PRIVATE_LIMIT }
    ensures value { (m : Memory) → m.private ≡ length bytes.old → bytes.new ≡ copied m bytes.old a b n }
    ensures filled { length bytes.new ≡ length bytes.old }
{
    for i in 0..n {
        bytes[a + i] = bytes[b + i];
    }
}
