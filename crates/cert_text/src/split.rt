//! The first line of some bytes.
ghost use Rattle.std.specs.Prelude.{◌≡◌, ◌+◌, length, option_map, IfSome};
ghost use Rattle.cert_text.specs.Lines.{Splits};

use memchr::memchr;

/// The first line of a text, without its LF, and what stands behind it; `None` where no LF stands in it.
pub fn split_line(bytes: &[u8]) -> Option<(&[u8], &[u8])>
    ensures splits { Splits bytes.now (option_map (λ parts. (parts.0.now, parts.1.now)) result) }
    ensures shorter { IfSome result (λ parts. length parts.0.now + length parts.1.now + 1 ≡ length bytes.now) }
{
    match memchr(b'\n', bytes) {
        Some(end) => Some((&bytes[..end], &bytes[end + 1..])),
        None => None,
    }
}
