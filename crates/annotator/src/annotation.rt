//! The listing line with its mark.
ghost use Rattle.std.specs.Prelude.{◌≡◌, ◌≤◌, length};
ghost use Rattle.annotator.specs.Meaning.{mark_byte, annotated};

use crate::text::add_text;
use arrayvec::ArrayVec;
use cov_base::Mark;

/// The character of a mark, in ASCII.
fn mark_byte(mark: Mark) -> u8
    ensures { result ≡ mark_byte mark }
{
    match mark {
        Mark::Text => b' ',
        Mark::Not => b'^',
        Mark::Done => b':',
        Mark::Branched => b'>',
        Mark::Fell => b'V',
        Mark::Both => b'&',
    }
}

/// The mark, one blank, and the line unchanged; the line has at most 150 bytes.
pub fn annotate(line: &[u8], mark: Mark) -> ArrayVec<u8, 160>
    requires { length line.now ≤ 150 }
    ensures { result.items ≡ annotated mark line.now }
{
    let mut marked = ArrayVec::new();
    marked.push(mark_byte(mark));
    marked.push(b' ');
    add_text(&mut marked, line);
    marked
}
