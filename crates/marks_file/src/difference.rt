//! The first row in which two tables differ.
ghost use Rattle.std.specs.Prelude.{◌≡◌, ◌+◌, ◌<◌, ◌≤◌, ◌^◌, length, map, drop, option_map, IfSome, IsNone, All};
ghost use Rattle.marks_file.specs.Meaning.{place_total, place_row, module_row, module_rows, rows};
ghost use Rattle.marks_file.specs.Marks.{HasRow};
ghost use Rattle.marks_file.specs.Combine.{first_row, IsDifference, IsDifferenceWithin, SamePlaces, SameTables};

use crate::marks::{MarkedModule, MarkedPlace};
use crate::rows::{module_row, place_row};
use arrayvec::ArrayVec;

/// The tables differ: the first row that differs, numbered from 0 over the table, and what it is in each table, 20 bytes of a
/// module or 8 of a place; none where the table has no such row.
#[derive(Drop)]
pub struct OtherTable {
    pub row: u32,
    pub left: Option<ArrayVec<u8, 20>>,
    pub right: Option<ArrayVec<u8, 20>>,
}

/// A row that can be kept.
fn kept(row: &[u8]) -> ArrayVec<u8, 20>
    requires { length row.now ≤ 20 }
    ensures { result.items ≡ row.now }
{
    let mut bytes = ArrayVec::new();
    let Ok(()) = bytes.try_extend_from_slice(row) else {
        unreachable!()
    };
    bytes
}

/// The difference in the rows of places, which are as many in both tables, from this row on.
fn places_difference(row: u32, a: &[MarkedPlace], b: &[MarkedPlace]) -> Option<OtherTable>
    requires same { length a.now ≡ length b.now }
    requires fits { row + length a.now < 2 ^ 32 }
    ensures none { IsNone result → SamePlaces a.now b.now }
    ensures some { IfSome result (IsDifferenceWithin row (map place_row a.now) (map place_row b.now)) }
{
    for i in 0..a.len() {
        let left = place_row(&a[i]);
        let right = place_row(&b[i]);
        if left != right {
            return Some(OtherTable {
                row: row + i as u32,
                left: Some(kept(&left)),
                right: Some(kept(&right)),
            });
        }
    }
    None
}

/// The difference in the rows of a module, from this row on.
fn module_difference(row: u32, a: &MarkedModule, b: &MarkedModule) -> Option<OtherTable>
    requires left { HasRow a.now }
    requires right { HasRow b.now }
    requires fits { row + 1 + length a.now.places < 2 ^ 32 }
    ensures none { IsNone result → (module_row a.now ≡ module_row b.now) × SamePlaces a.now.places b.now.places }
    ensures some { IfSome result (IsDifferenceWithin row (module_rows a.now) (module_rows b.now)) }
{
    let left = module_row(a);
    let right = module_row(b);
    if left != right {
        return Some(OtherTable {
            row,
            left: Some(kept(&left)),
            right: Some(kept(&right)),
        });
    }
    places_difference(row + 1, &a.places, &b.places)
}

/// The row of a module; none past the last one.
fn row_at(modules: &[MarkedModule], n: usize) -> Option<ArrayVec<u8, 20>>
    requires { All HasRow modules.now }
    ensures { option_map (λ v. v.items) result ≡ first_row (drop n modules.now) }
{
    if n < modules.len() {
        Some(kept(&module_row(&modules[n])))
    } else {
        None
    }
}

/// The first row in which the tables differ; none where they are the same.
pub(crate) fn first_difference(a: &[MarkedModule], b: &[MarkedModule]) -> Option<OtherTable>
    requires left { All HasRow a.now }
    requires right { All HasRow b.now }
    requires fits { length a.now + place_total a.now < 2 ^ 32 }
    ensures none { IsNone result → SameTables a.now b.now }
    ensures some { IfSome result (IsDifference 0 (rows a.now) (rows b.now)) }
{
    let mut row: u32 = 0;
    let both = a.len().min(b.len());
    for i in 0..both {
        let left = &a[i];
        let places = left.places.len() as u32;
        if let Some(other) = module_difference(row, left, &b[i]) {
            return Some(other);
        }
        row += 1 + places;
    }
    if a.len() == b.len() {
        return None;
    }
    Some(OtherTable {
        row,
        left: row_at(a, both),
        right: row_at(b, both),
    })
}
