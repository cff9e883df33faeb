ghost use Rattle.std.specs.Prelude.{◌≡◌, ◌≤◌, ◌++◌, ℕ, ℤ, List, [], Option, false, length};
ghost use Rattle.desk_messages.specs.declared.reply.outcome.Outcome.{Outcome};
ghost use Rattle.desk_messages.specs.reply.HttpDate.{moment_given};
ghost use Rattle.desk_messages.specs.reply.Text.{reply_bytes_of};
ghost use Rattle.desk_client.specs.Alike.{TellAlike};
ghost use Rattle.desk_client.specs.Reply.{IsReplyReading, IsReply, longest_reply_body};
ghost use Rattle.desk_client.specs.Tells.{Tells};
ghost use Rattle.desk_client.specs.Told.{IsTellable, told_text};
ghost use Rattle.desk_client.specs.declared.reply.Reading.{Reading};
ghost use Rattle.desk_client.specs.declared.reply.Reading.TheVariants.{Whole};
ghost use Rattle.desk_client.specs.declared.told.Told.{Told};
ghost use Rattle.asks.specs.declared.endpoint.Grants.{Grants};

use crate::columns::{MeterColumns, QuoteColumns, SaleColumns, TotalsColumns};
use desk_messages::date_law;
use records::Columns;

/// What a desk replies, where the conversation goes on, whatever its clock gave, is the text of
/// what the reply tells; it is read as a whole reply; one text tells one thing, value for value;
/// and no reply begins another.
pub fn told_law()
    ensures text { (asked : Grants) (now : Option ℤ) (outcome : Outcome) (told : Told)
        → Tells outcome told → IsTellable asked told
        → length (told_text told) ≤ longest_reply_body
        → IsReply asked (reply_bytes_of (moment_given now) outcome false) told }
    ensures read { (asked : Grants) (text : List ℕ) (told : Told) (reading : Reading)
        → IsReply asked text told → IsReplyReading asked text reading
        → (read : Told) × (reading ≡ Whole read) × IsReply asked text read }
    ensures alike { (asked : Grants) (text : List ℕ) (told other : Told)
        → IsReply asked text told → IsReply asked text other → TellAlike told other }
    ensures alone { (asked : Grants) (text more : List ℕ) (told other : Told)
        → IsReply asked text told → IsReply asked (text ++ more) other → more ≡ [] }
{
    date_law();
    <SaleColumns>::columns_law();
    <MeterColumns>::columns_law();
    <QuoteColumns>::columns_law();
    <TotalsColumns>::columns_law();
}
