//! Runs of digits, of SMILES and of SMARTS.

ghost use Rattle.std.specs.Prelude.{◌≡◌, ℕ, ◌≤◌, ◌++◌, ◌↔◌, IsTrue, IfSome, Some, length};
ghost use Rattle.std.specs.List.{AllByRecursion};
ghost use Rattle.std.specs.Fmt.{decimal};
ghost use Rattle.smiles_words.specs.Atom.{IsDigit, value_of};
ghost use Rattle.smiles_words.specs.Follow.{NoDigitFirst};

/// The digits that the bytes begin with, all of them, and the bytes after these.
pub fn digits_at(bytes: &[u8]) -> (&[u8], &[u8])
    ensures split { bytes.now ≡ result.0.now ++ result.1.now }
    ensures digits { AllByRecursion IsDigit result.0.now }
    ensures all { NoDigitFirst result.1.now }
{
    for (count, byte) in bytes.iter().enumerate() {
        if !is_digit(*byte) {
            return bytes.split_at(count);
        }
    }
    (bytes, &[])
}

/// True if the byte is a digit.
pub fn is_digit(byte: u8) -> bool
    ensures { IsTrue result ↔ IsDigit byte }
{
    byte >= b'0' && byte <= b'9'
}

/// The number that at most three digits spell; 0 if there are none.
pub fn digits_value(digits: &[u8]) -> u16
    requires few { length digits.now ≤ 3 }
    requires digits { AllByRecursion IsDigit digits.now }
    ensures value { result ≡ value_of digits.now }
    ensures bound { result ≤ 999 }
{
    match digits {
        [] => 0,
        [a] => u16::from(*a - b'0'),
        [a, b] => 10 * u16::from(*a - b'0') + u16::from(*b - b'0'),
        [a, b, c] => {
            100 * u16::from(*a - b'0') + 10 * u16::from(*b - b'0') + u16::from(*c - b'0')
        }
        _ => unreachable!(),
    }
}

/// The number that one or two digits spell; `None` for no digits, for more, and for a 0 before another digit.
pub fn short_number(digits: &[u8]) -> Option<u8>
    requires { AllByRecursion IsDigit digits.now }
    ensures found { IfSome result (λ n. (n ≤ 99) × (digits.now ≡ decimal n)) }
    ensures only { (n : ℕ) → n ≤ 99 → digits.now ≡ decimal n → result ≡ Some n }
{
    match digits {
        [ones] => Some(*ones - b'0'),
        [tens, ones] => {
            if *tens == b'0' {
                return None;
            }
            Some(10 * (*tens - b'0') + (*ones - b'0'))
        }
        _ => None,
    }
}
