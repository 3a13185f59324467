//! The line that each byte of a module belongs to.
ghost use Rattle.std.specs.Prelude.{◌≡◌, ℕ, ◌+◌, ◌<◌, ◌≤◌, Some, None, length, get_or};
ghost use Rattle.brk_table.specs.Cover.{is_covered};

/// Whether one of the bytes from a location on has a line.
#[tactic(auto, using(crate::proofs::CoverLemmas::covered_none, crate::proofs::CoverLemmas::covered_more, crate::proofs::CoverLemmas::covered_found))]
pub fn is_covered(cover: &[Option<u32>], from: usize, len: usize) -> bool
    requires { from + len ≤ length cover.now }
    ensures { result ≡ is_covered cover.now from len }
{
    for k in 0..len {
        if cover[from + k].is_some() {
            return true;
        }
    }
    false
}

/// Gives the bytes from a location on to the line.
pub fn mark(cover: &mut [Option<u32>], from: usize, len: usize, line: u32)
    requires { from + len ≤ length cover.old }
    ensures inside { (k : ℕ) → from ≤ k → k < from + len → get_or cover.new k None ≡ Some line }
    ensures before { (k : ℕ) → k < from → get_or cover.new k None ≡ get_or cover.old k None }
    ensures behind { (k : ℕ) → from + len ≤ k → get_or cover.new k None ≡ get_or cover.old k None }
{
    for k in 0..len {
        cover[from + k] = Some(line);
    }
}
