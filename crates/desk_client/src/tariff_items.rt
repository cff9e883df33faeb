//! The tariffs of a page, with the steps that begin on later days.

ghost use Rattle.std.specs.Prelude.{◌≡◌, ◌++◌, IfOk};
ghost use Rattle.sts_fields.specs.Day.{IsDay};
ghost use Rattle.tariff.specs.Steps.{IsSteps};
ghost use Rattle.tariff.specs.StepsText.{steps_text};
ghost use Rattle.book_states.specs.declared.lookup.ListedTariff.{ListedTariff as Tariff};
ghost use Rattle.desk_messages.specs.reply.Lists.{day_text, tariff_text};
ghost use Rattle.desk_client.specs.Page.{IsToldTariff, tariff_view};
ghost use Rattle.desk_client.specs.TariffItem.{with_steps};
ghost use Rattle.records.specs.Front.{IsFound};
ghost use Rattle.desk_client.specs.Text.{LacksStop};

use crate::items::{Item, read_items};
use crate::text::value_at;
use crate::values::tariff_of;
use book_states::{LaterSteps, ListedTariff};
use desk_messages::day_text_law;
use std::alloc::{AllocError, Global};
use sts_fields::{Day, calendar_law, day_law};
use tariff::{Steps, StepsFault, steps_text_law};

impl Item for LaterSteps {
    ghost use Rattle.desk_client.specs.Page.{IsToldLater};
    ghost use Rattle.desk_client.specs.TariffItem.{later_text};

    ghost is_told = { IsToldLater };

    ghost text_of = { later_text };

    fn read_front<'t>(
        alloc: Global,
        text: &'t [u8],
    ) -> Result<Option<(LaterSteps, &'t [u8])>, AllocError> {
        calendar_law();
        let Some(WithSteps { value, steps, rest }) = read_with_steps(alloc, text, b"{\"from\":\"")?
        else {
            return Ok(None);
        };
        let Some(from) = day_in(value) else {
            return Ok(None);
        };
        Ok(Some((LaterSteps { from, steps }, rest)))
    }

    fn item_law() {
        calendar_law();
    }
}

impl Item for ListedTariff {
    ghost use Rattle.desk_messages.specs.reply.Lists.{tariff_text};
    ghost use Rattle.desk_client.specs.Page.{IsToldTariff};

    ghost is_told = { IsToldTariff };

    ghost text_of = { tariff_text };

    fn read_front<'t>(
        alloc: Global,
        text: &'t [u8],
    ) -> Result<Option<(ListedTariff, &'t [u8])>, AllocError> {
        LaterSteps::item_law();
        let Some(rest) = text.strip_prefix(b"{\"later\":[".as_slice()) else {
            return Ok(None);
        };
        let Some((later, rest)) = read_items::<LaterSteps>(alloc, rest)? else {
            return Ok(None);
        };
        let Some(WithSteps { value, steps, rest }) = read_with_steps(alloc, rest, b",\"name\":\"")?
        else {
            return Ok(None);
        };
        let Some(name) = tariff_of(value) else {
            return Ok(None);
        };
        Ok(Some((ListedTariff { name, steps, later }, rest)))
    }

    fn item_law() {
        LaterSteps::item_law();
    }
}

// A value and the steps behind it, and what follows them.
#[derive(Drop)]
struct WithSteps<'t> {
    value: &'t [u8],
    steps: Steps,
    rest: &'t [u8],
}

// What stands at the front of a text behind a first word: a value, the steps, and the end of an
// object.
fn read_with_steps<'t>(
    alloc: Global,
    text: &'t [u8],
    front: &[u8],
) -> Result<Option<WithSteps<'t>>, AllocError>
    ensures { IfOk result (IsFound (λ found. LacksStop found.value.now × IsSteps found.steps
        × (text.now ≡ with_steps front.now found.value.now found.steps ++ found.rest.now))) }
{
    let Some(rest) = text.strip_prefix(front) else {
        return Ok(None);
    };
    let Some((value, rest)) = value_at(rest, b"\",\"steps\":\"") else {
        return Ok(None);
    };
    let Some((steps, rest)) = value_at(rest, b"\"}") else {
        return Ok(None);
    };
    match steps_in(alloc, steps)? {
        Some(steps) => Ok(Some(WithSteps { value, steps, rest })),
        None => Ok(None),
    }
}

// The day that a value is.
fn day_in(value: &[u8]) -> Option<Day>
    ensures { IsFound (λ day. IsDay day × (value.now ≡ day_text day)) result }
{
    day_text_law();
    day_law();
    match Day::of_text(value) {
        Ok(day) => Some(day),
        Err(_) => None,
    }
}

// The steps that a value is written from. An error is want of memory.
fn steps_in(alloc: Global, value: &[u8]) -> Result<Option<Steps>, AllocError>
    ensures { IfOk result (IsFound (λ steps. IsSteps steps × (value.now ≡ steps_text steps))) }
{
    steps_text_law();
    match Steps::of_text(alloc, value) {
        Ok(steps) => Ok(Some(steps)),
        Err(StepsFault::Memory) => Err(AllocError),
        Err(_) => Ok(None),
    }
}

// Tariffs of one text have one name, the same steps, and the same later steps.
pub(crate) fn tariff_law()
    ensures { (t u : Tariff) → IsToldTariff t → IsToldTariff u → tariff_text t ≡ tariff_text u
        → tariff_view t ≡ tariff_view u }
{
    day_text_law();
    day_law();
    steps_text_law();
    calendar_law();
    LaterSteps::item_law();
}
