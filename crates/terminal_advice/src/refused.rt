//! What is said of the refusals of an office.
ghost use Rattle.std.specs.Prelude.{◌≡◌};
ghost use Rattle.terminal_advice.specs.Refused.{refusal_reason, refusal_remedy};

use office_rules::Refusal;

/// Why the office refused.
pub(crate) fn refusal_reason(refusal: Refusal) -> &'static str
    ensures { result.now ≡ refusal_reason refusal }
{
    match refusal {
        Refusal::RefReused => "This order number belongs to another sale. Nothing was sold now.",
        Refusal::NoShift => "The operator has no open shift. Nothing was done.",
        Refusal::ShiftOpen => "The operator's shift is open already.",
        Refusal::NoMeter => "The office has no meter with this number.",
        Refusal::NoTariff => "There is no tariff of this name.",
        Refusal::Differs => {
            "Something else is stored under this name, number or day. It was left as it is."
        }
        Refusal::BeforeBase => "At this moment the base date has not come yet.",
        Refusal::IdentifiersSpent => "This meter has used up its token identifiers.",
        Refusal::IdentifierAhead => {
            "This meter's identifiers are more than a day ahead of the office's clock."
        }
        Refusal::TooLittle => "This does not pay for 0.1 kWh.",
        Refusal::OfficeFull => "The office is full.",
        Refusal::NoSale => "There is no sale of this number or ref, or none to the meter.",
        Refusal::NoSuchShift => "There is no shift of this number.",
        Refusal::ImportRow(..) => "A row of the file was refused, and nothing was added.",
        Refusal::Memory => "The office's computer is out of memory. Nothing was done.",
        Refusal::Store => { "The office's disk failed, or a row is damaged." }
        Refusal::Stopped =>
            "The office has stopped after its disk failed or a row was found damaged.",
        Refusal::NotLater => "This meter has a later base date already, and sells under it.",
        Refusal::DayPast => { "That day has begun (UTC), or something was sold on it or later." }
        Refusal::HasSales => "Tokens were sold to this meter with the key that it has.",
    }
}

/// What to do about it.
pub(crate) fn refusal_remedy(refusal: Refusal) -> &'static str
    ensures { result.now ≡ refusal_remedy refusal }
{
    match refusal {
        Refusal::RefReused => "Take a new number for another sale.",
        Refusal::NoShift => "Open one, or correct the operator.",
        Refusal::ShiftOpen => "Go on selling, or close it first.",
        Refusal::NoMeter => "Compare it with the number on the meter, or have the meter added.",
        Refusal::NoTariff => "Correct the name, or add the tariff first.",
        Refusal::Differs => "Take another name, or compare what you entered.",
        Refusal::BeforeBase => "Have the clock set right, or wait for the day.",
        Refusal::IdentifiersSpent => {
            "Have the clock set right. If it is right, have the meter moved to a later base date and cleared."
        }
        Refusal::IdentifierAhead => { "Have the clock set right. If it is right, wait." }
        Refusal::TooLittle => "Ask for more money.",
        Refusal::OfficeFull => "Whoever runs it has to begin a new file.",
        Refusal::NoSale => "Correct what you entered.",
        Refusal::NoSuchShift => "Correct the number.",
        Refusal::ImportRow(..) => "The cause says why, and what to do. Row 0 is the header.",
        Refusal::Memory => "Try again later.",
        Refusal::Store => "Make room and try the same again, or audit the file.",
        Refusal::Stopped => "Have somebody look whether the disk is full, and try again.",
        Refusal::NotLater => "There is nothing to do.",
        Refusal::DayPast => "Take a later day. Steps that have begun stay.",
        Refusal::HasSales => "Correct the number. The key of a meter with sales stays.",
    }
}
