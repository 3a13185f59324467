//! The columns of a listing line.
ghost use Rattle.std.specs.Prelude.{◌≡◌, ◌≤◌};
ghost use Rattle.listing_reader.specs.Meaning.{column, columns_of};
ghost use Rattle.listing_reader.specs.Columns.{AreColumns};

/// How wide a listing is.
#[derive(Clone, Copy)]
pub enum Width {
    /// 121 columns: locations of six digits.
    Narrow,
    /// Locations of eight digits.
    Wide,
}

/// Which columns hold the fields of a line, counted from 1 behind the shift (High Level Assembler, the source and
/// object section of the listing).
#[derive(Clone, Copy)]
pub struct Columns {
    /// The first of the location.
    pub location: u8,
    /// How many columns the location has.
    pub digits: u8,
    /// The first of the object code.
    pub object: u8,
    /// How many columns the object code has.
    pub room: u8,
    /// The first of the source statement.
    pub source: u8,
}

const NARROW: Columns = Columns {
    location: 1,
    digits: 6,
    object: 8,
    room: 14,
    source: 41,
};

const WIDE: Columns = Columns {
    location: 1,
    digits: 8,
    object: 10,
    room: 16,
    source: 51,
};

/// The columns of a listing of that width.
pub fn columns_of(width: Width) -> Columns
    ensures value { result ≡ columns_of width }
    ensures columns { AreColumns result }
{
    match width {
        Width::Narrow => NARROW,
        Width::Wide => WIDE,
    }
}

/// The byte in column n, counted from 1 behind the shift, which is 1 where the lines begin with a print
/// control character and else 0. A line that ends early is filled with blanks.
#[tactic(auto, unfolding(crate::specs::Meaning::column))]
pub fn column(line: &[u8], shift: u8, n: usize) -> u8
    requires { 1 ≤ n }
    ensures { result ≡ column line.now shift n }
{
    let before = n - 1;
    if before >= line.len() {
        return b' ';
    }
    let at = before + shift as usize;
    if at < line.len() { line[at] } else { b' ' }
}
