ghost use Rattle.std.specs.Prelude.{◌≡◌, ◌++◌, ℕ, Bool, List, Option, map};
ghost use Rattle.std.specs.List.{AllByRecursion};
ghost use Rattle.serde_json.specs.Data.{Data, member, no_members, object};
ghost use Rattle.serde_json.specs.Written.{compact_text};
ghost use Rattle.records.specs.Cell.{Held, IsPlain, IsTellable};
ghost use Rattle.records.specs.Json.{record_data};
ghost use Rattle.records.specs.List.{list_text, page_text};
ghost use Rattle.records.specs.Record.{record_text};
ghost use Rattle.sts_fields.specs.Day.{IsDay, IsDayText};
ghost use Rattle.tariff.specs.Steps.{IsSteps};
ghost use Rattle.tariff.specs.StepsText.{IsStepsText, steps_text};
ghost use Rattle.tariff.specs.declared.step.Step.{Step};
ghost use Rattle.book_states.specs.declared.lookup.ListedTariff.{ListedTariff};
ghost use Rattle.conversation.specs.declared.message.method.Method.{Method};
ghost use Rattle.desk_messages.specs.declared.reply.outcome.Outcome.{Outcome};
ghost use Rattle.desk_messages.specs.reply.Body.{body_of};
ghost use Rattle.desk_messages.specs.reply.Json.{IsTellableTariff, array_of, tariff_data};
ghost use Rattle.desk_messages.specs.reply.Lists.{day_text, tariff_text};
ghost use Rattle.desk_messages.specs.reply.Text.{reply_to};

use sts_fields::{calendar_law, day_law};
use tariff::steps_text_law;

/// A reply to GET is that to HEAD, and then its body.
#[tactic(auto, unfolding(crate::specs::reply::Text::reply_text))]
pub fn head_law()
    ensures { (dated : Option ℕ) (outcome : Outcome) (closes : Bool)
        → reply_to Method.Get dated outcome closes
        ≡ reply_to Method.Head dated outcome closes ++ body_of outcome }
{}

/// What a desk replies is the text of JSON: of the object of a record, of a tariff, and of the
/// object whose one member is a list of those.
pub fn json_law()
    ensures record { (names : List (List ℕ)) (cells : List Held) → AllByRecursion IsPlain names
        → AllByRecursion IsTellable cells
        → record_text names cells ≡ compact_text (record_data names cells) }
    ensures tariff { (t : ListedTariff) → IsTellableTariff t
        → tariff_text t ≡ compact_text (tariff_data t) }
    ensures list { (items : List Data)
        → list_text (map compact_text items) ≡ compact_text (array_of items) }
    ensures page { (name : List ℕ) (list : Data) → IsPlain name → page_text name (compact_text list)
        ≡ compact_text (object (member name list no_members)) }
{
    calendar_law();
}

/// The days and the steps in replies and targets are read back as what they are.
pub fn day_text_law()
    ensures days { (day : ℕ) → IsDay day → IsDayText (day_text day) day }
    ensures steps { (steps : List Step) → IsSteps steps → IsStepsText (steps_text steps) steps }
{
    calendar_law();
    day_law();
    steps_text_law();
}
