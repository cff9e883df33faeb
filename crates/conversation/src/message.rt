//! A message: its head, the fields and the framing of that, and its body.

mod fields;
pub(crate) mod framing;
pub(crate) mod head;
pub(crate) mod message_fault;
pub(crate) mod method;
pub(crate) mod next;
pub(crate) mod received;
mod target;
