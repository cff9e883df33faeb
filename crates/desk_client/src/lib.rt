//! What a command sends to a running desk, and what it understands of the reply. It opens no
//! socket and no file.
#![tactic(auto)]

mod answers;
mod columns;
mod count;
mod items;
mod law;
mod listed_meter;
mod listed_shift;
mod meter;
mod page;
mod quote;
mod receipt;
mod refusal;
mod reply;
mod report;
mod report_line;
mod sale;
mod sending;
mod sent;
mod start;
mod tariff_items;
mod text;
mod time;
mod told;
mod totals;
mod values;

pub use answers::answer_in;
pub use law::told_law;
pub use page::{PageKind, has_tokens, page_in, page_law};
pub use reply::{MAX_BODY, MAX_HEAD, Reading, reply_in};
pub use sending::{message, wanted_by};
pub use sent::question_law;
pub use told::{Granted, Told};
