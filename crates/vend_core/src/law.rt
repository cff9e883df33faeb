//! What holds of an office over requests, stops and lives.

mod apart;
mod credited;
mod history;
mod life;
mod lives;
mod office;
mod reached;

pub use apart::apart_law;
pub use credited::credited_law;
pub use history::history_law;
pub use life::life_law;
pub use lives::lives_law;
pub use office::office_law;
pub use reached::reached_law;
