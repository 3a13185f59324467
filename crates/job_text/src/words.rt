//! The words of a card, and the numbers, bytes and addresses that they spell.
ghost use Rattle.std.specs.Prelude.{◌≡◌, ◌+◌, ◌*◌, ◌<◌, map, IfOk, option_map};
ghost use Rattle.std.specs.Str.{bytes_eq};
ghost use Rattle.std.specs.List.{list_all};
ghost use Rattle.cov_base.specs.Meaning.{is_digit_byte};
ghost use Rattle.cov_base.specs.Meaning as text;
ghost use Rattle.job_text.specs.Meaning as spell;

use crate::lines::first_of;
use cov_base::{Addr, Name};
use hex::{FromHex, FromHexError};
use std::alloc::{AllocError, Global};

/// The parts of the card between its blanks.
pub(crate) fn split(alloc: Global, line: &[u8]) -> Result<Vec<&[u8]>, AllocError>
    ensures { IfOk result (λ v. map (λ w. w.now) v.items ≡ text.words line.now) }
{
    let mut words = Vec::new(alloc);
    let mut rest = line;
    while let Some(at) = first_of(b' ', rest) {
        let (word, more) = rest.split_at(at);
        words.push(word)?;
        rest = &more[1..];
    }
    words.push(rest)?;
    Ok(words)
}

/// Whether the word is this text.
pub(crate) fn is(word: &[u8], text: &[u8]) -> bool
    ensures { result ≡ bytes_eq word.now text.now }
{
    word == text
}

fn all_digits(word: &[u8]) -> bool
    ensures { result ≡ list_all is_digit_byte word.now }
{
    word.iter().all(|b| *b >= b'0' && *b <= b'9')
}

fn is_number(word: &[u8]) -> bool
    ensures { result ≡ spell.is_number word.now }
{
    word.len() >= 1 && word.len() <= 9 && (word[0] != b'0' || word.len() == 1) && all_digits(word)
}

/// The number of 1 to 9 digits without a leading zero, but 0 itself.
pub(crate) fn number_of(word: &[u8]) -> Option<u32>
    ensures { result ≡ spell.card_number word.now }
{
    if !is_number(word) {
        return None;
    }
    let mut n: u32 = 0;
    for b in word {
        n = n * 10 + u32::from(*b - b'0');
    }
    Some(n)
}

/// The 1 to 64 bytes that the word spells in hexadecimal digits of either case.
pub(crate) fn bytes_of(alloc: Global, word: &[u8]) -> Result<Option<Vec<u8>>, AllocError>
    ensures { IfOk result (λ o. option_map (λ v. v.items) o ≡ spell.bytes_at word.now) }
{
    if word.len() < 2 || word.len() > 128 {
        return Ok(None);
    }
    match hex::decode(alloc, word) {
        Ok(bytes) => Ok(Some(bytes)),
        Err(FromHexError::OutOfMemory) => Err(AllocError),
        Err(_) => Ok(None),
    }
}

/// The address of six hexadecimal digits of either case.
pub(crate) fn address_of(word: &[u8]) -> Option<Addr>
    ensures { result ≡ spell.address_at word.now }
{
    match <[u8; 3] as FromHex>::from_hex(word) {
        Ok(bytes) => Addr::new(
            u32::from(bytes[0]) * 65_536 + u32::from(bytes[1]) * 256 + u32::from(bytes[2]),
        ),
        Err(_) => None,
    }
}

/// The word of eight hexadecimal digits of either case.
pub(crate) fn word_of(word: &[u8]) -> Option<u32>
    ensures { result ≡ spell.card_word word.now }
{
    match <[u8; 4] as FromHex>::from_hex(word) {
        Ok(bytes) => Some(u32::from_be_bytes(bytes)),
        Err(_) => None,
    }
}

/// The names that the words spell; none where one of them is no name.
pub(crate) fn names_of(alloc: Global, words: &[&[u8]]) -> Result<Option<Vec<Name>>, AllocError>
    ensures { IfOk result (λ o. option_map (λ v. v.items) o ≡ spell.names_at (map (λ w. w.now) words.now)) }
{
    let mut names = Vec::new(alloc);
    for word in words {
        match Name::read(word) {
            None => return Ok(None),
            Some(name) => names.push(name)?,
        }
    }
    Ok(Some(names))
}
