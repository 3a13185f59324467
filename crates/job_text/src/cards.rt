//! The card that a line is.
ghost use Rattle.std.specs.Prelude.{◌≡◌, map, IfOk, option_map};
ghost use Rattle.cov_base.specs.Meaning.{name_at};
ghost use Rattle.job_text.specs.Meaning.{card_number, bytes_at, address_at, card_word, names_at};
ghost use Rattle.job_text.specs.Meaning as spell;
ghost use Rattle.job_text.specs.Views.{view};

use crate::card::{Card, RegCard};
use crate::words::{address_of, bytes_of, is, names_of, number_of, split, word_of};
use cov_base::Name;
use module_area::DataCard;
use session_book::Service;
use std::alloc::{AllocError, Global};

fn short_card(alloc: Global, key: &[u8], a: &[u8]) -> Result<Option<Card>, AllocError>
    ensures { IfOk result (λ o. option_map view o ≡ spell.short_card key.now a.now) }
{
    if is(key, b"TEXT") {
        return Ok(bytes_of(alloc, a)?.map(Card::Text));
    }
    if is(key, b"LISTING") {
        return Ok(number_of(a).map(Card::Listing));
    }
    if is(key, b"PHASE") {
        return Ok(Name::read(a).map(Card::Phase));
    }
    if is(key, b"INPUT") {
        return Ok(bytes_of(alloc, a)?.map(Card::Input));
    }
    if is(key, b"COVERJOB") && is(a, b"1") {
        return Ok(Some(Card::Cover));
    }
    Ok(None)
}

fn whole_session(name: Option<Name>, modules: Option<Vec<Name>>) -> Option<Card>
    ensures { option_map view result ≡ spell.as_session name (option_map (λ v. v.items) modules) }
{
    match (name, modules) {
        (Some(name), Some(modules)) => Some(Card::Session {
            name,
            by: None,
            modules,
        }),
        _ => None,
    }
}

fn controlled_session(
    name: Option<Name>,
    task: Option<Name>,
    modules: Option<Vec<Name>>,
) -> Option<Card>
    ensures { option_map view result ≡ spell.as_controlled name task (option_map (λ v. v.items) modules) }
{
    match (name, task, modules) {
        (Some(name), Some(task), Some(modules)) => Some(Card::Session {
            name,
            by: Some(task),
            modules,
        }),
        _ => None,
    }
}

/// The card of the words behind BY.
fn controlled_card(alloc: Global, name: &[u8], words: &[&[u8]]) -> Result<Option<Card>, AllocError>
    ensures { IfOk result (λ o. option_map view o ≡ spell.controlled_card name.now (map (λ w. w.now) words.now)) }
{
    if words.len() < 2 {
        return Ok(None);
    }
    let modules = names_of(alloc, &words[1..])?;
    Ok(controlled_session(Name::read(name), Name::read(words[0]), modules))
}

/// The card of the words behind SESSION and a name.
fn session_card(alloc: Global, name: &[u8], words: &[&[u8]]) -> Result<Option<Card>, AllocError>
    ensures { IfOk result (λ o. option_map view o ≡ spell.session_card name.now (map (λ w. w.now) words.now)) }
{
    match words {
        [] => Ok(None),
        [first, rest @ ..] => {
            if is(first, b"BY") {
                return controlled_card(alloc, name, rest);
            }
            let modules = names_of(alloc, words)?;
            Ok(whole_session(Name::read(name), modules))
        }
    }
}

fn may_stand(base: u32, size: u32) -> bool
    ensures { result ≡ spell.may_stand base size }
{
    base % 8 == 0
        && base >= 0x100000
        && size % 2 == 0
        && size >= 2
        && u64::from(base) + u64::from(size) <= 0xFFF000
}

fn module_card(key: &[u8], a: &[u8], b: &[u8], c: &[u8]) -> Option<Card>
    ensures { option_map view result ≡ spell.module_card key.now a.now b.now c.now }
{
    if !is(key, b"MODULE") {
        return None;
    }
    match (Name::read(a), address_of(b), number_of(c)) {
        (Some(name), Some(base), Some(size)) => {
            if may_stand(base.get(), size) {
                Some(Card::Module { name, base, size })
            } else {
                None
            }
        }
        _ => None,
    }
}

fn reg_card(a: &[u8], b: &[u8]) -> Option<Card>
    ensures { option_map view result ≡ spell.as_reg (card_number a.now) (card_word b.now) }
{
    match (number_of(a), word_of(b)) {
        (Some(number), Some(value)) => {
            if number <= 15 {
                Some(Card::Reg(RegCard {
                    number: number as u8,
                    value,
                }))
            } else {
                None
            }
        }
        _ => None,
    }
}

fn data_card(alloc: Global, a: &[u8], b: &[u8]) -> Result<Option<Card>, AllocError>
    ensures { IfOk result (λ o. option_map view o ≡ spell.as_data (card_number a.now) (bytes_at b.now)) }
{
    let bytes = bytes_of(alloc, b)?;
    match (number_of(a), bytes) {
        (Some(offset), Some(bytes)) => Ok(Some(Card::Data(DataCard { offset, bytes }))),
        _ => Ok(None),
    }
}

fn service_card(a: &[u8], b: &[u8]) -> Option<Card>
    ensures { option_map view result ≡ spell.as_service (card_number a.now) (address_at b.now) }
{
    match (number_of(a), address_of(b)) {
        (Some(number), Some(entry)) => {
            if number == 0 || number >= 6 && number <= 254 {
                Some(Card::Service(Service {
                    number: number as u8,
                    entry,
                }))
            } else {
                None
            }
        }
        _ => None,
    }
}

fn pair_card(alloc: Global, key: &[u8], a: &[u8], b: &[u8]) -> Result<Option<Card>, AllocError>
    ensures { IfOk result (λ o. option_map view o ≡ spell.pair_card key.now a.now b.now) }
{
    if is(key, b"REG") {
        return Ok(reg_card(a, b));
    }
    if is(key, b"DATA") {
        return data_card(alloc, a, b);
    }
    if is(key, b"SERVICE") {
        return Ok(service_card(a, b));
    }
    Ok(None)
}

fn task_card(key: &[u8], a: &[u8], b: &[u8], c: &[u8], d: &[u8], e: &[u8]) -> Option<Card>
    ensures { option_map view result ≡ spell.task_card key.now a.now b.now c.now d.now e.now }
{
    if !is(key, b"TASK") {
        return None;
    }
    match (
        Name::read(a),
        address_of(b),
        number_of(c),
        number_of(d),
        number_of(e),
    ) {
        (Some(name), Some(entry), Some(private), Some(budget), Some(room)) => {
            if budget >= 1 {
                Some(Card::Task {
                    name,
                    entry,
                    private,
                    budget,
                    room,
                })
            } else {
                None
            }
        }
        _ => None,
    }
}

fn long_card(
    alloc: Global,
    key: &[u8],
    a: &[u8],
    rest: &[&[u8]],
) -> Result<Option<Card>, AllocError>
    ensures { IfOk result (λ o. option_map view o ≡ spell.long_card key.now a.now (map (λ w. w.now) rest.now)) }
{
    if rest.len() == 1 {
        return pair_card(alloc, key, a, rest[0]);
    }
    if rest.len() == 2 {
        return Ok(module_card(key, a, rest[0], rest[1]));
    }
    if rest.len() == 4 {
        return Ok(task_card(key, a, rest[0], rest[1], rest[2], rest[3]));
    }
    Ok(None)
}

fn card_of(alloc: Global, words: &[&[u8]]) -> Result<Option<Card>, AllocError>
    ensures { IfOk result (λ o. option_map view o ≡ spell.card_of (map (λ w. w.now) words.now)) }
{
    match words {
        [] => Ok(None),
        [key] => {
            if is(key, b"ENDJOB") {
                Ok(Some(Card::End))
            } else {
                Ok(None)
            }
        }
        [key, a] => short_card(alloc, key, a),
        [key, a, rest @ ..] => {
            if is(key, b"SESSION") {
                return session_card(alloc, a, rest);
            }
            long_card(alloc, key, a, rest)
        }
    }
}

/// The card that the line is; none exactly where it is no card.
pub(crate) fn read_card(alloc: Global, line: &[u8]) -> Result<Option<Card>, AllocError>
    ensures { IfOk result (λ o. option_map view o ≡ spell.card_at line.now) }
{
    let words = split(alloc, line)?;
    card_of(alloc, &words)
}
