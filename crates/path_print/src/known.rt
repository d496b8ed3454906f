//! The known facts of an atom: its number, and whether it is aromatic.
ghost use Rattle.std.specs.Prelude.{◌≡◌};
ghost use Rattle.path_print.specs.Path.{exact, plain, label_of};

/// The known facts of an atom; `None` for an unknown one.
#[derive(Clone, Copy, Debug, PartialEq, Eq)]
pub struct Known {
    /// The atomic number.
    pub number: Option<u8>,
    pub aromatic: Option<bool>,
}

impl Known {
    /// Nothing is known.
    pub const NOTHING: Known = Known {
        number: None,
        aromatic: None,
    };

    /// The label by number and whether aromatic, if both are known.
    #[inline(always)]
    pub fn exact(&self) -> Option<(u8, u8)>
        ensures { result ≡ label_of exact self.now }
    {
        match (self.number, self.aromatic) {
            (Some(number), Some(aromatic)) => Some((number, u8::from(aromatic))),
            _ => None,
        }
    }

    /// The label by number alone, if it is known.
    #[inline(always)]
    pub fn plain(&self) -> Option<(u8, u8)>
        ensures { result ≡ label_of plain self.now }
    {
        Some((self.number?, 2))
    }
}
