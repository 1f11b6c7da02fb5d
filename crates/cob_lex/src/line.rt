//! Lines by their columns.
ghost use Rattle.std.specs.Prelude.{◌≡◌, ◌+◌, ◌-◌, ◌<◌, ◌≤◌, ◌∷◌, length, IfSome};
ghost use Rattle.std.specs.Option.{ForSome};
ghost use Rattle.std.specs.Str.Lines.{lines, strip_carriage_return};
ghost use Rattle.cob_lex.specs.Columns.{columns, byte_at, is_comment, is_continuation, is_ordinary, first_nonblank, is_dropped, first_tab, is_strange, first_strange, tab_column, indicator_column, strange_column, bad_column};

use memchr::memchr;

/// The first column of the text area.
pub const AREA: usize = 8;
/// The last column of the text area.
pub const LAST: usize = 72;

fn without_return(line: &[u8]) -> &[u8]
    ensures stripped { result.now ≡ strip_carriage_return line.now }
    ensures shorter { length result.now ≤ length line.now }
{
    match line {
        [front @ .., b'\r'] => front,
        _ => line,
    }
}

/// Cuts off the first line: the line without its end, and what follows it.
pub fn first_line(bytes: &[u8]) -> (&[u8], &[u8])
    requires { 0 < length bytes.now }
    ensures cut { lines bytes.now ≡ result.0.now ∷ lines result.1.now }
    ensures shorter { length result.1.now < length bytes.now }
{
    match memchr(b'\n', bytes) {
        Some(end) => (without_return(&bytes[..end]), &bytes[end + 1..]),
        None => (bytes, &bytes[bytes.len()..]),
    }
}

/// The bytes of these columns, as far as the line goes.
pub fn columns(line: &[u8], from: usize, to: usize) -> &[u8]
    requires first { 0 < from }
    requires ordered { from ≤ to }
    ensures bytes { result.now ≡ columns from to line.now }
    ensures short { length result.now + from ≤ to + 1 }
{
    let end = to.min(line.len());
    let start = (from - 1).min(end);
    &line[start..end]
}

/// The byte in a column; past the line's end a space.
#[inline(always)]
pub fn byte_at(line: &[u8], column: usize) -> u8
    requires { 0 < column }
    ensures { result ≡ byte_at line.now column }
{
    if column <= line.len() {
        line[column - 1]
    } else {
        b' '
    }
}

fn is_comment(line: &[u8]) -> bool
    ensures { result ≡ is_comment line.now }
{
    matches!(byte_at(line, 7), b'*' | b'/' | b'D' | b'd')
}

pub fn is_continuation(line: &[u8]) -> bool
    ensures { result ≡ is_continuation line.now }
{
    byte_at(line, 7) == b'-'
}

fn is_ordinary(line: &[u8]) -> bool
    ensures { result ≡ is_ordinary line.now }
{
    byte_at(line, 7) == b' '
}

/// The place of the first nonblank in the text area, from 0.
pub fn first_nonblank(line: &[u8]) -> Option<usize>
    ensures value { result ≡ first_nonblank line.now }
    ensures within { IfSome result (λ k. k < length (columns 8 72 line.now)) }
    ensures short { IfSome result (λ k. k < 65) }
{
    columns(line, AREA, LAST)
        .iter()
        .position(|byte| *byte != b' ')
}

/// Whether the line is left out: a comment, or blank.
pub fn is_dropped(line: &[u8]) -> bool
    ensures { result ≡ is_dropped line.now }
{
    is_comment(line) || (is_ordinary(line) && first_nonblank(line).is_none())
}

fn first_tab(line: &[u8]) -> Option<usize>
    ensures value { result ≡ first_tab line.now }
    ensures within { ForSome result (λ k. k < 7) }
{
    columns(line, 1, 7).iter().position(|byte| *byte == b'\t')
}

fn tab_column(line: &[u8]) -> Option<u32>
    ensures { result ≡ tab_column line.now }
{
    first_tab(line).map(|place| place as u32 + 1)
}

fn indicator_column(line: &[u8]) -> Option<u32>
    ensures { result ≡ indicator_column line.now }
{
    if is_comment(line) || is_continuation(line) || is_ordinary(line) {
        None
    } else {
        Some(7)
    }
}

fn is_strange(byte: u8) -> bool
    ensures { result ≡ is_strange byte }
{
    byte < 32 || byte > 126
}

fn first_strange(line: &[u8]) -> Option<usize>
    ensures value { result ≡ first_strange line.now }
    ensures within { ForSome result (λ k. k < 65) }
{
    columns(line, AREA, LAST)
        .iter()
        .position(|byte| is_strange(*byte))
}

fn strange_column(line: &[u8]) -> Option<u32>
    ensures { result ≡ strange_column line.now }
{
    if is_comment(line) {
        None
    } else {
        first_strange(line).map(|place| place as u32 + 8)
    }
}

/// The first column at which the line is bad by itself.
pub fn bad_column(line: &[u8]) -> Option<u32>
    ensures { result ≡ bad_column line.now }
{
    tab_column(line)
        .or(indicator_column(line))
        .or(strange_column(line))
}
