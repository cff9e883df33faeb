//! A conversation over HTTP/1.1: what the bytes of a connection are as messages, and how each is
//! answered by a service before more is read.
//!
//! `specs/` has what the messages of an input are, over its whole bytes and the grammar of heads
//! that `httparse` states.
#![tactic(auto)]

mod clock;
mod conversation;
mod end;
mod line;
mod machine_clock;
mod message;
mod sending;
mod service;
mod unanswered;
mod wants;

pub use clock::{Clock, Script};
pub use conversation::run;
pub use end::End;
pub use line::{Line, Untold};
pub use machine_clock::{MachineClock, TimeSource};
pub use message::framing::{Framing, MAX_BODY};
pub use message::head::{Front, MAX_FIELDS, MAX_HEAD, front_of};
pub use message::message_fault::MessageFault;
pub use message::method::Method;
pub use message::next::{Next, message_law, next_of};
pub use message::received::Received;
pub use service::Service;
