//! Modules by address.
ghost use Rattle.std.specs.Prelude.{◌≡◌, ℕ, ◌<◌, ◌≤◌, ◌-◌, ◌+◌, ◌*◌, true, false, IsTrue, IfSome, IsSome, IsNone, slice_index, Contains, length};
ghost use Rattle.std.specs.List.{list_any};
ghost use Rattle.module_area.specs.Images.{AreImages};
ghost use Rattle.brk_table.specs.Meaning.{in_image, image_byte};

use cov_base::Addr;
use module_area::{Image, Images};

/// The module that stands at the address.
#[inline(always)]
fn image_at(images: &[Image], a: u32) -> Option<&Image>
    ensures one { IfSome result (λ i. Contains images.now i.now) }
    ensures inside { IfSome result (λ i. in_image i.now a ≡ true) }
    ensures byte { IfSome result (λ i. image_byte images.now a ≡ slice_index i.now.bytes (a - i.now.base)) }
    ensures none { IsNone result → list_any (λ i. in_image i a) images.now ≡ false }
    ensures zero { IsNone result → image_byte images.now a ≡ 0 }
{
    for image in images {
        let base = image.base.get();
        if base <= a && ((a - base) as usize) < image.bytes.len() {
            return Some(image);
        }
    }
    None
}

/// Whether a module stands at the address.
pub fn is_image(images: &Images, a: u32) -> bool
    ensures { result ≡ list_any (λ i. in_image i a) images.now }
{
    image_at(&images.0, a).is_some()
}

/// The module's byte, or 0 where none stands.
#[inline(never)]
pub fn image_byte(images: &Images, a: u32) -> u8
    ensures { result ≡ image_byte images.now a }
{
    match image_at(&images.0, a) {
        Some(image) => image.bytes[(a - image.base.get()) as usize],
        None => 0,
    }
}

/// Whether all bytes of the range stand in one module.
pub fn is_in_one_image(images: &Images, a: u32, len: u32) -> bool
    requires { AreImages images.now }
    ensures all { IsTrue result → (b : ℕ) → a ≤ b → b < a + len → list_any (λ i. in_image i b) images.now ≡ true }
    ensures below { IsTrue result → a + len ≤ 16777216 }
{
    match image_at(&images.0, a) {
        Some(image) => {
            u64::from(a - image.base.get()) + u64::from(len) <= image.bytes.len() as u64
        }
        None => false,
    }
}

/// The halfword where both its bytes stand in one module.
#[inline(always)]
pub fn image_half(images: &Images, a: u32) -> Option<u16>
    requires { AreImages images.now }
    ensures from { IsSome result → 1048576 ≤ a }
    ensures below { IsSome result → a + 2 ≤ 16777216 }
    ensures first { IsSome result → list_any (λ i. in_image i a) images.now ≡ true }
    ensures second { IsSome result → list_any (λ i. in_image i (a + 1)) images.now ≡ true }
    ensures value { IfSome result (λ h. h ≡ image_byte images.now a * 256 + image_byte images.now (a + 1)) }
{
    let image = image_at(&images.0, a)?;
    let n = (a - image.base.get()) as usize;
    if n + 1 < image.bytes.len() {
        Some(u16::from(image.bytes[n]) * 256 + u16::from(image.bytes[n + 1]))
    } else {
        None
    }
}

/// The bytes of a range that stands in one module.
pub fn image_field(images: &Images, a: u32, len: u32) -> Option<&[u8]>
    requires { AreImages images.now }
    ensures from { IsSome result → 1048576 ≤ a }
    ensures below { IsSome result → a + len ≤ 16777216 }
    ensures size { IfSome result (λ s. length s.now ≡ len) }
    ensures each { IfSome result (λ s. (i : ℕ) → i < len → slice_index s.now i ≡ image_byte images.now (a + i)) }
{
    let image = image_at(&images.0, a)?;
    let from = (a - image.base.get()) as usize;
    let n = len as usize;
    if from + n <= image.bytes.len() {
        Some(&image.bytes[from..from + n])
    } else {
        None
    }
}
