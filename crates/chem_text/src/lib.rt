//! Bytes of text: a cursor over them, decimal numbers, lines.
#![tactic(auto)]

mod cursor;
mod line;
mod number;

pub use cursor::Cursor;
pub use line::{line_at, one_line};
pub use number::{decimal, push_decimal};
