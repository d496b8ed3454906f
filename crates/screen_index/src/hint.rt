//! The likely place of the next pair.

/// The block of the last answer, and the index in it after that answer. A wrong hint costs time and changes no answer.
#[derive(Clone, Copy, Default)]
pub struct Hint {
    pub(crate) block: usize,
    pub(crate) place: usize,
}
