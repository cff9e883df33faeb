ghost use Rattle.std.specs.Prelude.{◌++◌, ℕ, ℤ, List, Some};
ghost use Rattle.asks.specs.Ask.{IsAskable, message_of};
ghost use Rattle.asks.specs.declared.ask.Ask.{Ask};
ghost use Rattle.conversation.specs.message.Messages.{BeginsMessage};
ghost use Rattle.desk_messages.specs.Meaning.{MessageHasFault};
ghost use Rattle.desk_messages.specs.declared.desk_fault.DeskFault.TheVariants.{Clock};
ghost use Rattle.desk_client.specs.Sent.{CanSend, IsNoMoment, ask_text};

use sts_fields::{calendar_law, day_law};

/// A desk reads what is sent for an ask as one whole message; `ask_law` of `asks` says that it asks
/// this and nothing else. Where the desk's clock is outside the moments of an office, the message
/// asks nothing.
pub fn question_law()
    ensures sent { (ask : Ask) (rest : List ℕ) → CanSend ask
        → BeginsMessage (ask_text ask ++ rest) (message_of ask) rest }
    ensures outside { (ask : Ask) (second : ℤ) → IsAskable ask → IsNoMoment second
        → MessageHasFault (message_of ask) (Some second) Clock }
{
    calendar_law();
    day_law();
}
