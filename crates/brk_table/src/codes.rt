//! The instructions of the places.
ghost use Rattle.std.specs.Prelude.{◌≡◌, ◌+◌, ◌<◌, ◌≤◌, length, All, IfOk};
ghost use Rattle.brk_table.specs.Kept.{code_in, AreCodesOf};
ghost use Rattle.brk_table.specs.Places.{IsIn};

use crate::fault::module_code;
use cov_base::NoMemory;
use module_area::{Image, Images, Place};
use s370_decode::Code;
use std::alloc::Global;

/// The whole instruction of a place of the module.
fn code_in(image: &Image, place: &Place) -> Code
    requires from { image.now.base ≤ place.now.at }
    requires to { place.now.at + place.now.len ≤ image.now.base + length image.now.bytes }
    ensures code { result ≡ code_in image.now place.now }
    ensures bytes { All (λ b. b < 256) result.bytes }
{
    let loc = (place.at.get() - image.base.get()) as usize;
    let mut code = module_code(&image.bytes, loc, place.len);
    code.at = place.at;
    code
}

/// The whole instruction of each place.
pub fn codes_of(alloc: Global, images: &Images, places: &[Place]) -> Result<Vec<Code>, NoMemory>
    requires { All (IsIn images.now) places.now }
    ensures { IfOk result (λ codes. AreCodesOf images.now places.now codes.items) }
{
    let mut codes = Vec::with_capacity(alloc, places.len())?;
    for i in 0..places.len() {
        let place = &places[i];
        codes.push(code_in(&images.0[place.module as usize], place))?;
    }
    Ok(codes)
}
