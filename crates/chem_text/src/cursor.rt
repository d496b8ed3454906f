//! A cursor over the bytes of a text.

use std::marker::Model;

/// A place in a text. It takes no memory.
///
/// Contracts see the whole text and the place, which is at most its length.
#[derive(Debug, Drop)]
pub struct Cursor<'a> {
    text: &'a [u8],
    place: usize,
}

impl<'a> Model for Cursor<'a> {
    ghost use Rattle.std.specs.Prelude.{◌≤◌, length};
    ghost use Rattle.chem_text.specs.Cursor.{Place};

    ghost Value = { Place };

    ghost view = { λ c. record { text = c.text.now; at = c.place } };

    ghost invariant = { λ c. c.place ≤ length c.text.now };
}

impl<'a> Cursor<'a> {
    ghost use Rattle.std.specs.Prelude.{◌≡◌, ◌+◌, ◌<◌, ◌≤◌, ◌↔◌, length, drop, slice_get, IsSome, IsNone};
    ghost use Rattle.chem_text.specs.Cursor.{Place};

    /// A cursor at the start of the text.
    pub fn new(bytes: &'a [u8]) -> Cursor<'a>
        ensures { result ≡ record { text = bytes.now; at = 0 } }
    {
        Cursor {
            text: bytes,
            place: 0,
        }
    }

    /// The byte at the place, or `None` at the end.
    pub fn peek(&self) -> Option<u8>
        ensures byte { result ≡ slice_get self.now.text self.now.at }
        ensures left { IsSome result ↔ (self.now.at < length self.now.text) }
        ensures end { IsNone result ↔ (self.now.at ≡ length self.now.text) }
    {
        self.text.get(self.place).copied()
    }

    /// Goes on by one byte.
    pub fn step(&mut self)
        requires { self.old.at < length self.old.text }
        ensures { self.new ≡ record self.old { at = self.old.at + 1 } }
    {
        self.place += 1;
    }

    /// The number of bytes before the place.
    pub fn place(&self) -> usize
        ensures value { result ≡ self.now.at }
        ensures within { result ≤ length self.now.text }
    {
        self.place
    }

    /// The bytes from the place on.
    pub fn rest(&self) -> &'a [u8]
        ensures { result.now ≡ drop self.now.at self.now.text }
    {
        &self.text[self.place..]
    }
}

#[cfg(test)]
mod tests {
    use super::*;

    #[test]
    fn each_byte_in_turn(rt: HostRuntime) {
        let mut cursor = Cursor::new(b"C=O");
        for (place, byte) in [(0, b'C'), (1, b'='), (2, b'O')] {
            assert_eq!(rt; cursor.place(), place);
            assert_eq!(rt; cursor.peek(), Some(byte));
            assert_eq!(rt; cursor.rest().first(), Some(&byte));
            cursor.step();
        }
        assert_eq!(rt; cursor.peek(), None);
        assert!(rt; cursor.rest().is_empty());
    }
}
