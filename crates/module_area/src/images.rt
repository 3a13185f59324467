//! Modules as bytes, and the bytes that fill private storage.

use cov_base::{Addr, Name};
use std::marker::Model;

/// A module: its name, the address of its first byte, and its bytes.
#[derive(Drop)]
pub struct Image {
    pub name: Name,
    pub base: Addr,
    pub bytes: Vec<u8>,
}

impl Model for Image {
    ghost use Rattle.cov_base.specs.Meaning.{ImageView};

    ghost Value = { ImageView };

    ghost view = { λ i. record { name = i.name; base = i.base; bytes = i.bytes.items } };
}

/// The modules of a job, in the order of their cards.
#[derive(Drop)]
pub struct Images(pub Vec<Image>);

impl Model for Images {
    ghost use Rattle.std.specs.Prelude.{List};
    ghost use Rattle.cov_base.specs.Meaning.{ImageView};

    ghost Value = { List ImageView };

    ghost view = { λ i. i.0.items };
}

/// Bytes at an offset of a task's private storage.
#[derive(Drop)]
pub struct DataCard {
    pub offset: u32,
    pub bytes: Vec<u8>,
}

impl Model for DataCard {
    ghost use Rattle.module_area.specs.Meaning.{DataView};

    ghost Value = { DataView };

    ghost view = { λ d. record { offset = d.offset; bytes = d.bytes.items } };
}
