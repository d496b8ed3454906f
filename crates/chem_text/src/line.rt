//! The lines of a text.

ghost use Rattle.std.specs.Prelude.{◌≡◌, ℕ, ◌<◌, ◌≤◌, ◌↔◌, List, length, IsNone, IfSome};
ghost use Rattle.chem_text.specs.Line.{IsLine};

use memchr::memchr;

/// The line from a place on: its end, before its LF, and the start of the next one. The last line may have no LF, and
/// then both are the length. `None` at the end of the text.
pub fn line_at(bytes: &[u8], from: usize) -> Option<(usize, usize)>
    requires { from ≤ length bytes.now }
    ensures none { IsNone result ↔ (from ≡ length bytes.now) }
    ensures line { IfSome result (λ r. IsLine bytes.now from r.0 r.1) }
    ensures forward { IfSome result (λ r. from < r.1) }
    ensures within { IfSome result (λ r. (from ≤ r.0) × (r.0 ≤ r.1) × (r.1 ≤ length bytes.now)) }
{
    if from == bytes.len() {
        return None;
    }
    match memchr(b'\n', &bytes[from..]) {
        Some(length) => Some((from + length, from + length + 1)),
        None => Some((bytes.len(), bytes.len())),
    }
}

/// From a place on there is one line at most.
pub fn one_line()
    ensures { (text : List ℕ) (from end next other after : ℕ) → IsLine text from end next → IsLine text from other after
        → (end ≡ other) × (next ≡ after) }
{}

#[cfg(test)]
mod tests {
    use super::*;

    #[test]
    fn lines_end_with_lf_alone(rt: HostRuntime) {
        let text = b"ab\n\nx\r\nc";
        assert_eq!(rt; text.len(), 8);
        for (from, line) in [
            (0, Some((2, 3))),
            (1, Some((2, 3))),
            (2, Some((2, 3))),
            (3, Some((3, 4))),
            (4, Some((6, 7))),
            (7, Some((8, 8))),
            (8, None),
        ] {
            assert!(rt; from <= 8);
            assert_eq!(rt; line_at(text, from), line, "from {from}");
        }
    }
}
