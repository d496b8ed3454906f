//! Decimal numbers, as they are printed: no sign, and no leading zero but in `0` itself.

ghost use Rattle.std.specs.Prelude.{◌≡◌, ◌≢◌, ◌↔◌, ℕ, ◌^◌, ◌<◌, ◌≤◌, ◌++◌, length, slice_index, decimal, IsTrue, IfSome, IfNone, OnOk, OnErr};
ghost use Rattle.std.specs.Option.{SomeIff};
ghost use Rattle.std.specs.Str.Parse.{AllDigits, digits_value};
ghost use Rattle.chem_text.specs.Number.{IsCanonical};

use itoa::Buffer;
use std::alloc::AllocError;

/// The number that the bytes are printed as, if it is at most `most`.
pub fn decimal(bytes: &[u8], most: u64) -> Option<u64>
    ensures some { IfSome result (λ n. bytes.now ≡ decimal n) }
    ensures limit { IfSome result (λ n. n ≤ most) }
    ensures none { IfNone result ((n : ℕ) → n ≤ most → bytes.now ≢ decimal n) }
{
    if !is_canonical(bytes) {
        return None;
    }
    match value(bytes) {
        Some(number) if number <= most => Some(number),
        _ => None,
    }
}

/// Writes a number at the end. An `Err` changes nothing.
pub fn push_decimal(out: &mut Vec<u8>, n: u64) -> Result<(), AllocError>
    ensures ok { OnOk result (out.new.items ≡ out.old.items ++ decimal n) }
    ensures err { OnErr result (out.new.items ≡ out.old.items) }
{
    out.extend_from_slice(Buffer::new().format(n).as_bytes())
}

// True if there is no leading plus, and no zero before other bytes.
fn is_canonical(bytes: &[u8]) -> bool
    ensures { IsTrue result ↔ IsCanonical bytes.now }
{
    bytes.first() != Some(&b'+') && (bytes.len() < 2 || bytes[0] != b'0')
}

// The value of decimal digits, if it is below 2 ^ 64.
fn value(bytes: &[u8]) -> Option<u64>
    requires { slice_index bytes.now 0 ≢ 43 }
    ensures { SomeIff result ((0 < length bytes.now) × AllDigits 10 bytes.now × (digits_value 10 bytes.now < 2 ^ 64))
        (digits_value 10 bytes.now) }
{
    match std::str::from_utf8(bytes) {
        Ok(text) => text.parse().ok(),
        Err(_) => None,
    }
}

#[cfg(test)]
mod tests {
    use super::*;
    use std::test::Fail;

    #[test]
    fn numbers_are_read_as_they_are_printed(rt: HostRuntime) {
        for (text, most, number) in [
            ("0", 0, Some(0)),
            ("7", 7, Some(7)),
            ("999", 999, Some(999)),
            ("1000", 999, None),
            ("18446744073709551615", u64::MAX, Some(u64::MAX)),
            ("18446744073709551616", u64::MAX, None),
            (
                "99999999999999999999999999999999999999999999",
                u64::MAX,
                None,
            ),
            ("", 9, None),
            ("00", 9, None),
            ("01", 9, None),
            ("+1", 9, None),
            ("-1", 9, None),
            ("1 ", 9, None),
            ("1a", 99, None),
            ("\u{663}", 9, None),
        ] {
            assert_eq!(rt; decimal(text.as_bytes(), most), number, "at {text}, {most}");
        }
    }

    #[test]
    fn numbers_are_printed_at_the_end(rt: HostRuntime) -> Result<(), Fail> {
        let mut out = Vec::new(rt.alloc());
        for number in [0, 10, u64::MAX] {
            push_decimal(&mut out, number)?;
            out.push(b' ')?;
        }
        assert_eq!(rt; out.as_slice(), b"0 10 18446744073709551615 ".as_slice());
        Ok(())
    }
}
