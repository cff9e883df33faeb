//! The opening of an office over a connection, and the bringing of its tables to the present
//! format.
//!
//! `docs/PROMISE.md` has it in words ("Opening"). `specs/Opening.antt` says what is found and left.
#![tactic(auto)]

pub use fault::OpenFault;
pub use opening::{fault_of, next_here};
pub use sold_so_far::SoldSoFar;

mod bringing;
mod fault;
mod opening;
mod sold_so_far;
