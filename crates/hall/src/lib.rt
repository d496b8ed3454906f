//! A hall: one store, on which passes in any threads take turns.
//!
//! A pass of the hall sits at a `Desk`, which is a `Service`: each call is one turn on the store. All turns together
//! are one history, a run of the machine that begins at the store's state when the hall was made. A pass has seen a
//! beginning of it with all of its own calls. The pass that has every number knows the whole history, and gets the
//! store back, in its last state.
#![tactic(auto)]

mod desk;
mod hall;
mod kept;
mod laws;
mod turns;

pub use desk::Desk;
pub use hall::{Hall, HallPass};
pub use kept::{Kept, Origin, Told};
