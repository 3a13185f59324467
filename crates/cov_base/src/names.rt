//! Names of modules, phases, sessions and tasks.
ghost use Rattle.std.specs.Prelude.{⊤, ◌≡◌, ◌≤◌, ◌<◌, length, true, false, take, IfSome, IsNone};
ghost use Rattle.std.specs.List.{list_all};
ghost use Rattle.cov_base.specs.Meaning.{is_letter, is_digit_byte, is_name_byte, is_name, is_filled, name_at, padded, unpadded};

use std::alloc::AllocError;
use std::marker::Model;

/// A name of 1 to 8 characters: the first of `A` to `Z`, `@`, `#`, `$`, the others of these or digits.
/// Contracts see the eight bytes of the name filled with blanks.
#[derive(PartialEq, Eq, Hash)]
pub struct Name([u8; 8]);

impl Model for Name {
    ghost use Rattle.std.specs.Prelude.{◌≡◌, ℕ, List, true};
    ghost use Rattle.cov_base.specs.Meaning.{is_name, padded, unpadded};

    ghost Value = { List ℕ };

    ghost view = { λ n. n.0 };

    ghost invariant = { λ n. (is_name (unpadded n.0) ≡ true) × (padded (unpadded n.0) ≡ n.0) };

    ghost inverse = { λ bytes. record { 0 = bytes } };
}

impl Clone for Name {
    ghost is_clone = { λ x y. y ≡ x };

    ghost is_infallible = { λ _. ⊤ };

    fn clone(&self) -> Result<Self, AllocError> {
        Ok(*self)
    }
}

impl Copy for Name {}

fn is_letter(b: u8) -> bool
    ensures { result ≡ is_letter b }
{
    (65 <= b && b <= 90) || (b == 64 || (b == 35 || b == 36))
}

fn is_name_byte(b: u8) -> bool
    ensures { result ≡ is_name_byte b }
{
    is_letter(b) || (48 <= b && b <= 57)
}

fn all_in_name(word: &[u8]) -> bool
    ensures { result ≡ list_all is_name_byte word.now }
{
    word.iter().all(|b| is_name_byte(*b))
}

fn is_name(word: &[u8]) -> bool
    ensures { result ≡ is_name word.now }
{
    word.len() >= 1 && word.len() <= 8 && is_letter(word[0]) && all_in_name(word)
}

/// How many bytes stand before the first blank.
fn unpadded_length(bytes: &[u8]) -> usize
    ensures within { result ≤ length bytes.now }
    ensures value { unpadded bytes.now ≡ take result bytes.now }
{
    for i in 0..bytes.len() {
        if bytes[i] == 32 {
            return i;
        }
    }
    bytes.len()
}

/// The word filled with blanks.
fn filled(word: &[u8]) -> [u8; 8]
    requires { length word.now ≤ 8 }
    ensures { result ≡ padded word.now }
{
    let mut bytes = [32u8; 8];
    bytes[..word.len()].copy_from_slice(word);
    bytes
}

impl Name {
    /// The name that the text spells; none exactly where it is no name.
    pub fn read(text: &[u8]) -> Option<Name>
        ensures { result ≡ name_at text.now }
    {
        if !is_name(text) {
            return None;
        }
        Some(Name(filled(text)))
    }

    /// The name that the field of 8 bytes is, filled with blanks; none exactly where it is no such field.
    pub fn read_filled(field: &[u8]) -> Option<Name>
        requires { length field.now ≡ 8 }
        ensures name { IfSome result (λ n. n ≡ field.now) }
        ensures good { IfSome result (λ _. is_filled field.now ≡ true) }
        ensures bad { IsNone result → is_filled field.now ≡ false }
    {
        let word = &field[..unpadded_length(field)];
        match Name::read(word) {
            Some(name) if filled(word).as_slice() == field => Some(name),
            _ => None,
        }
    }

    /// The name filled with blanks to 8 bytes.
    pub fn filled(&self) -> [u8; 8]
        ensures value { result ≡ self.now }
        ensures size { length result ≡ 8 }
    {
        self.0
    }

    /// The name without padding.
    pub fn bytes(&self) -> &[u8]
        ensures value { result.now ≡ unpadded self.now }
        ensures name { is_name result.now ≡ true }
        ensures fits { length result.now ≤ 8 }
    {
        let bytes = &self.0;
        &bytes[..unpadded_length(bytes)]
    }
}
