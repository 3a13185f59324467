//! The lines of an input.
ghost use Rattle.std.specs.Prelude.{◌≡◌, ◌+◌, ◌∷◌, ◌<◌, length, nat_eq, position};
ghost use Rattle.job_text.specs.Meaning.{as_line, lines_of, listing_text};
ghost use Rattle.job_text.specs.Lines.{span};

/// The first line of a text without its LF, whether an LF ended it, and the bytes that follow.
#[derive(Drop)]
pub struct FirstLine<'a> {
    pub bytes: &'a [u8],
    pub ended: bool,
    pub rest: &'a [u8],
}

/// Where the byte first stands.
pub(crate) fn first_of(byte: u8, text: &[u8]) -> Option<usize>
    ensures { result ≡ position (λ b. nat_eq b byte) text.now }
{
    text.iter().position(|b| *b == byte)
}

/// Takes the first line off a text that isn't empty. Each LF ends a line; what follows the last LF is a line where it
/// isn't empty. Takes no memory.
pub fn first_line(text: &[u8]) -> FirstLine<'_>
    requires { 0 < length text.now }
    ensures line { lines_of text.now ≡ as_line result.bytes.now result.ended ∷ lines_of result.rest.now }
    ensures less { length result.rest.now < length text.now }
    ensures size { span (as_line result.bytes.now result.ended) + length result.rest.now ≡ length text.now }
{
    match first_of(b'\n', text) {
        Some(at) => {
            let (bytes, more) = text.split_at(at);
            FirstLine {
                bytes,
                ended: true,
                rest: &more[1..],
            }
        }
        None => FirstLine {
            bytes: text,
            ended: false,
            rest: &text[text.len()..],
        },
    }
}

/// The text of a listing line: one CR right before its LF is no part of it.
pub(crate) fn listing_text(bytes: &[u8], ended: bool) -> &[u8]
    ensures { result.now ≡ listing_text (as_line bytes.now ended) }
{
    if ended && bytes.len() >= 1 && bytes[bytes.len() - 1] == b'\r' {
        &bytes[..bytes.len() - 1]
    } else {
        bytes
    }
}
