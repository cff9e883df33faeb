ghost use Rattle.std.specs.Prelude.{◌≡◌};
ghost use Rattle.conversation.specs.message.Messages.{Message};
ghost use Rattle.asks.specs.Ask.{Asks, IsAskable, message_of};
ghost use Rattle.asks.specs.declared.ask.Ask.{Ask};

use crate::texts::days_law;
use records::record_law;
use tariff::steps_text_law;

/// What messages ask: one thing at most, and the message of an ask asks it.
pub fn ask_law()
    ensures one { (m : Message) (a b : Ask) → Asks m a → Asks m b → a ≡ b }
    ensures own { (ask : Ask) → IsAskable ask → Asks (message_of ask) ask }
{
    days_law();
    steps_text_law();
    record_law();
}
