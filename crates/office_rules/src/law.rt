//! What the definitions come to, as contracts that other crates have by a call.

mod store;

pub use store::store_law;
