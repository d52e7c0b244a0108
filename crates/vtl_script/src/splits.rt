//! Finding the place where a text is cut.
ghost use Rattle.std.specs.Prelude.{◌≡◌, ◌==◌, ◌<◌, position, length, IfSome};

/// The place of the first byte of `text` that equals `byte`, counted from 0; None where there is none.
pub fn place_of(byte: u8, text: &[u8]) -> Option<usize>
    ensures place { result ≡ position (λ other. other == byte) text.now }
    ensures within { IfSome result (λ place. place < length text.now) }
{
    memchr::memchr(byte, text)
}
