//! What a command has of the machine, and the machine's own.

pub(crate) mod command_stream;
pub(crate) mod door;
pub(crate) mod file_fault;
pub(crate) mod loopback;
pub(crate) mod machine_door;
pub(crate) mod machine_loopback;
pub(crate) mod machine_texts;
pub(crate) mod network;
pub(crate) mod patient;
pub(crate) mod patient_writer;
pub(crate) mod queue;
pub(crate) mod terminal;
pub(crate) mod text_files;
mod wait;
