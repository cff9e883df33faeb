//! What the program says at a terminal of a line by which it refused: why, and what to do; and
//! behind a sale whether the clock looks wrong.
#![tactic(auto)]

mod advice;
mod advised;
mod begun;
mod closer;
mod doubt;
mod last_line;
mod last_sale;
mod lines;
mod look;
mod misread;
mod refused;
mod remembering;
mod schema;
mod second_line;
mod time;
mod value_rules;

pub use advice::Advice;
pub use advised::{refuse_advised, run_advised};
pub use begun::{Begun, Unseen};
pub use lines::advice_of;
pub use look::{Here, Look};
