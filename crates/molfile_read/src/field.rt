//! Fields: certain columns of a line (CTfile formats, V2000).
ghost use Rattle.std.specs.Prelude.{◌≡◌, ◌≤◌, IfSome};
ghost use Rattle.molfile_read.specs.Field.{columns, after_blanks, trimmed, decimal_in, signed_in, number_in, signed_number_in, is_other_than_zero};

/// The columns of a line from `first` to `last`, which count from 1; fewer if the line ends before.
pub(crate) fn columns(line: &[u8], first: usize, last: usize) -> &[u8]
    requires from_one { 1 ≤ first }
    requires order { first ≤ last }
    ensures { result.now ≡ columns first last line.now }
{
    let end = last.min(line.len());
    let start = (first - 1).min(end);
    &line[start..end]
}

/// The bytes without their leading blanks.
pub(crate) fn after_blanks(bytes: &[u8]) -> &[u8]
    ensures { result.now ≡ after_blanks bytes.now }
{
    let mut rest = bytes;
    while let [b' ', after @ ..] = rest {
        rest = after;
    }
    rest
}

/// The bytes without the blanks round them.
pub(crate) fn trimmed(bytes: &[u8]) -> &[u8]
    ensures { result.now ≡ trimmed bytes.now }
{
    let mut rest = after_blanks(bytes);
    while let [before @ .., b' '] = rest {
        rest = before;
    }
    rest
}

/// The number that the digits spell, if it is at most `most`; `None` for other bytes, and for no bytes.
pub(crate) fn decimal(digits: &[u8], most: u16) -> Option<u16>
    requires { most ≤ 999 }
    ensures value { result ≡ decimal_in most digits.now }
    ensures range { IfSome result (λ n. n ≤ most) }
{
    if digits.is_empty() {
        return None;
    }
    let mut value = 0;
    for digit in digits {
        if !digit.is_ascii_digit() {
            return None;
        }
        value = 10 * value + u16::from(*digit - b'0');
        if value > most {
            return None;
        }
    }
    Some(value)
}

/// As `decimal`, but a `-` may precede the number.
pub(crate) fn signed(text: &[u8], most: u16) -> Option<i8>
    requires { most ≤ 99 }
    ensures { result ≡ signed_in most text.now }
{
    match text {
        [b'-', digits @ ..] => {
            let size = decimal(digits, most)?;
            Some(-(size as i8))
        }
        _ => {
            let size = decimal(text, most)?;
            Some(size as i8)
        }
    }
}

/// The number in the columns of a line from `first` to `last`, if it is at most `most`. Blanks may be round it, and a
/// blank field is 0.
pub(crate) fn number(line: &[u8], first: usize, last: usize, most: u16) -> Option<u16>
    requires from_one { 1 ≤ first }
    requires order { first ≤ last }
    requires most { most ≤ 999 }
    ensures value { result ≡ number_in most (columns first last line.now) }
    ensures range { IfSome result (λ n. n ≤ most) }
{
    match trimmed(columns(line, first, last)) {
        [] => Some(0),
        digits => decimal(digits, most),
    }
}

/// As `number`, but a `-` may precede it.
pub(crate) fn signed_number(line: &[u8], first: usize, last: usize, most: u16) -> Option<i8>
    requires from_one { 1 ≤ first }
    requires order { first ≤ last }
    requires most { most ≤ 99 }
    ensures { result ≡ signed_number_in most (columns first last line.now) }
{
    match trimmed(columns(line, first, last)) {
        [] => Some(0),
        text => signed(text, most),
    }
}

/// True if a field holds another number than 0.
pub(crate) fn is_other_than_zero(field: Option<u16>) -> bool
    ensures { result ≡ is_other_than_zero field }
{
    match field {
        Some(number) => number != 0,
        None => false,
    }
}
