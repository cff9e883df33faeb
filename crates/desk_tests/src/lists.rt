//! What is asked of a desk, and what it has to reply, as lines of text.
//!
//! The first line of a list is the end of its one conversation, and each of its rows begins with
//! the moment of a message. There a request may follow, which the office over plain lists is asked,
//! with the reply to it below (`tools/oracle` says what these lines are). Then come the message and
//! the desk's reply. Where the first line is `Each`, each row is a conversation: it has the end of
//! it, the moments that the clock gives, its bytes, and the replies to them, whose dates are those
//! of these moments. `texts` says how they are written.
//!
//! They were written out by hand, or by a script from what `tools/oracle` replied. Each list is a
//! function without a clause, so that no proof reads it.

pub(crate) mod answers;
pub(crate) mod later;
pub(crate) mod looks;
pub(crate) mod requests;
pub(crate) mod talks;
