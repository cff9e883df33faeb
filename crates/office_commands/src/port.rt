//! What a command has of the machine beside what `vend_ports` has, and the machine's own.

pub(crate) mod ended;
pub(crate) mod machine;
pub(crate) mod new_log;
pub(crate) mod openings;
pub(crate) mod ports;
pub(crate) mod progress;
pub(crate) mod tries;
