//! The stores that there are keep the rows of each table in the order of the numbers that they have
//! in front of their columns, also where no column shows them.
//!
//! So a database that is found has each table in order, and nobody has to promise it.
#![tactic(auto)]

pub use keeping::{KeepsOrder, connection_order_law, order_law};

mod keeping;
