//! What is replied to a message.

mod array;
pub(crate) mod body;
pub(crate) mod form;
mod found;
mod head;
pub(crate) mod http_date;
pub(crate) mod law;
pub(crate) mod outcome;
mod pages;
mod record;
mod sale_text;
pub(crate) mod text;
