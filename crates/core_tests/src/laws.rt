//! Witnesses of the laws: each makes values that meet the premises of a law by running the code of
//! the program, calls the law, and concludes an equation from it.

mod apart;
mod lived;
mod lives;
mod meters;
mod office;
