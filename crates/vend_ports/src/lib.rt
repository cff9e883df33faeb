//! What a command has of the machine, what it prints on, and the lines that it prints; with them
//! the commands that need no more: `trial`, `meter` and `quote`.
//!
//! `specs/print/Told.antt` says what a command leaves on its outputs.
#![tactic(auto)]

mod clock;
mod command_end;
pub mod commands;
mod port;
mod print;
mod trials;

pub use clock::moment_or_now;
pub use command_end::CommandEnd;
pub use port::command_stream::CommandStream;
pub use port::door::Door;
pub use port::file_fault::FileFault;
pub use port::loopback::Loopback;
pub use port::machine_door::MachineDoor;
pub use port::machine_loopback::MachineLoopback;
pub use port::machine_texts::{MachineTexts, WholeFiles};
pub use port::network::{Connection, Listener, Network, ReadsWithin, WritesWithin};
pub use port::patient::PatientReader;
pub use port::patient_writer::PatientWriter;
pub use port::queue::{Listening, Queue};
pub use port::terminal::Terminal;
pub use port::text_files::TextFiles;
pub use print::lines::{
    address_text, put_added, put_line, put_no_moment, put_open, put_opened, put_progress,
    put_quote, put_read_fault, put_refusal, put_row, put_shift, put_stopped, put_waiting,
    put_withdrawn,
};
pub use print::watched::Watched;
pub use trials::{TrialFault, trial};
