ghost use Rattle.std.specs.Prelude.{◌≡◌, ℕ, List};
ghost use Rattle.vend_core.specs.Law.Life.{Life};
ghost use Rattle.conversation.specs.Conversation.{messages_of};
ghost use Rattle.conversation.specs.Exchanges.{Exchanged, MessageExchange, Timed, timed};
ghost use Rattle.conversation.specs.message.Messages.{Ending, Messages, Stop};
ghost use Rattle.desk.specs.Along.{AreAsked, GoesBy, Served, outcomes_of};
ghost use Rattle.desk.specs.Answering.{answers_by, life_serves};
ghost use Rattle.desk.specs.OneConversation.{IsOneConversation, moments_of};

use conversation::message_law;
use desk_messages::meaning_law;

/// A life goes on along a conversation by what its messages asked and were told, each once and in
/// order, and by nothing beside: only a request that the office replied to takes it further.
pub fn desk_law()
    ensures { (old new : Timed Life) (xs : List MessageExchange)
        → Exchanged (timed (answers_by life_serves)) old xs new
        → (served : List Served) × AreAsked xs served × GoesBy old.0 served new.0 }
{}

/// An input has one conversation: with the same answers of the clock, and where the same came of
/// what was asked, two conversations of an input are the same exchanges, and ask the same at the
/// same moments. Where the input ended they end alike, and are written the same.
pub fn conversation_law()
    ensures { (stop : Stop) (input : List ℕ) (xs ys : List MessageExchange) (e f : Ending)
        (served others : List Served)
        → Messages stop input (messages_of xs) e → Messages stop input (messages_of ys) f
        → moments_of xs ≡ moments_of ys
        → AreAsked xs served → AreAsked ys others → outcomes_of served ≡ outcomes_of others
        → IsOneConversation stop xs ys e f served others }
{
    message_law();
    meaning_law();
}
