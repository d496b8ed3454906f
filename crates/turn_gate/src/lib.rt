//! A gate lets passes in any threads take turns on one value. All turns together are one history of events. Whoever
//! joins all passes again gets the value back, and knows the whole history that it records. It is built on
//! `atomic_table`: two words and one slot, under a rule that each step keeps.
#![tactic(auto)]

mod gate;
mod known;
mod rule;
mod stands;
mod turn;
mod wait;

pub use gate::{Gate, Pass};
pub use known::Known;
pub use stands::Stands;
pub use turn::{Turn, Worn};
