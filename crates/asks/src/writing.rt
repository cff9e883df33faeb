//! The messages of asks.

ghost use Rattle.std.specs.Prelude.{◌≡◌, ◌++◌, ◌∷◌, [], OnOk, map};
ghost use Rattle.records.specs.Cell.{cell_text};
ghost use Rattle.records.specs.Record.{members_text, now};
ghost use Rattle.asks.specs.Ask.{body_of, row_by, target_of};
ghost use Rattle.asks.specs.Body.{bulk_cells, rows_text, steps_cells};
ghost use Rattle.asks.specs.Endpoint.{endpoint_of, place_of};
ghost use Rattle.asks.specs.Parts.{parts_of};
ghost use Rattle.asks.specs.Target.{end_text, pattern_text, places_text};
ghost use Rattle.asks.specs.Value.{cell_of, text_of};

use crate::ask::Ask;
use crate::endpoint::{Body, Slot};
use crate::kind::AskKind;
use crate::texts::{put_day, put_number, put_steps};
use crate::value::Value;
use conversation::Method;
use office_rules::Request;
use records::put_name;
use std::alloc::AllocError;
use sts_token::key_text;
use tariff::Steps;

impl Ask<'_> {
    /// The method of its message.
    pub fn method(&self) -> Method
        ensures { result ≡ (row_by self.now).method }
    {
        self.kind().endpoint().method
    }

    /// Adds the target of its message.
    ///
    /// # Errors
    /// `AllocError` if there is no memory; then a part of the text may have been added.
    pub fn put_target(&self, text: &mut Vec<u8>) -> Result<(), AllocError>
        ensures { OnOk result (text.new.items ≡ text.old.items ++ target_of self.now) }
    {
        let parts = self.parts();
        let endpoint = parts.kind.endpoint();
        put_places(text, endpoint.slots, endpoint.end, &parts.target)
    }

    /// Adds the body of its message.
    ///
    /// # Errors
    /// `AllocError` if there is no memory; then a part of the text may have been added.
    pub fn put_body(&self, text: &mut Vec<u8>) -> Result<(), AllocError>
        ensures { OnOk result (text.new.items ≡ text.old.items ++ body_of self.now) }
    {
        let parts = self.parts();
        match parts.kind.endpoint().body {
            Body::Unread => Ok(()),
            Body::Rows => self.put_rows(text),
            Body::Object(names, _) => {
                text.extend_from_slice(b"{")?;
                put_members(text, false, names, &parts.body, self.steps())
            }
        }
    }

    // Adds its rows, if it has any.
    fn put_rows(&self, text: &mut Vec<u8>) -> Result<(), AllocError>
        ensures { OnOk result (text.new.items
            ≡ text.old.items ++ rows_text (parts_of self.now).bulk) }
    {
        match self {
            Ask::Import(_, csv) => text.extend_from_slice(csv.bytes()),
            Ask::Do(_) | Ask::Receipt(_) | Ask::Look(_) => Ok(()),
        }
    }

    // Its steps, if it has any.
    fn steps(&self) -> Option<&Steps>
        ensures { steps_cells result ≡ bulk_cells (parts_of self.now).bulk }
    {
        match self {
            Ask::Do(Request::AddTariff(_, steps) | Request::AddSteps(_, _, steps)) => Some(steps),
            _ => None,
        }
    }
}

impl AskKind {
    /// Adds the pattern of its targets, in the syntax of `matchit`: a name in braces stands for
    /// each value.
    ///
    /// # Errors
    /// `AllocError` if there is no memory; then a part of the text may have been added.
    pub fn put_pattern(self, text: &mut Vec<u8>) -> Result<(), AllocError>
        ensures { OnOk result (text.new.items ≡ text.old.items
            ++ pattern_text (endpoint_of self).places (endpoint_of self).end) }
    {
        let endpoint = self.endpoint();
        put_patterns(text, endpoint.slots, endpoint.end)
    }
}

// Adds each front with a name behind it, and the end.
fn put_patterns(text: &mut Vec<u8>, slots: &[Slot], end: &str) -> Result<(), AllocError>
    ensures { OnOk result (text.new.items ≡ text.old.items
        ++ pattern_text (map place_of slots.now) end.now) }
{
    let [slot, slots @ ..] = slots else {
        return put_end(text, end);
    };
    text.extend_from_slice(b"/")?;
    text.extend_from_slice(slot.front.as_bytes())?;
    text.extend_from_slice(b"{")?;
    text.extend_from_slice(slot.kind.name().as_bytes())?;
    text.extend_from_slice(b"}")?;
    put_patterns(text, slots, end)
}

// Adds each value behind its front, and the end.
fn put_places(
    text: &mut Vec<u8>,
    slots: &[Slot],
    end: &str,
    values: &[Value],
) -> Result<(), AllocError>
    ensures { OnOk result (text.new.items ≡ text.old.items
        ++ places_text (map place_of slots.now) end.now values.now) }
{
    let [slot, slots @ ..] = slots else {
        return put_end(text, end);
    };
    let [value, values @ ..] = values else {
        return put_end(text, end);
    };
    text.extend_from_slice(b"/")?;
    text.extend_from_slice(slot.front.as_bytes())?;
    put_value(text, value)?;
    put_places(text, slots, end, values)
}

// Adds the end of a target.
fn put_end(text: &mut Vec<u8>, end: &str) -> Result<(), AllocError>
    ensures { OnOk result (text.new.items ≡ text.old.items ++ end_text end.now) }
{
    if end.is_empty() {
        return Ok(());
    }
    text.extend_from_slice(b"/")?;
    text.extend_from_slice(end.as_bytes())
}

// Adds the text of a value, as it stands in a target.
fn put_value(text: &mut Vec<u8>, value: &Value) -> Result<(), AllocError>
    ensures { OnOk result (text.new.items ≡ text.old.items ++ text_of value.now) }
{
    match value {
        Value::Base(base) => put_number(text, base.year()),
        Value::Day(day) => put_day(text, *day),
        Value::Key(key) => text.extend_from_slice(&key_text(*key)),
        Value::Meter(meter) => text.extend_from_slice(meter.as_bytes()),
        Value::Number(number) | Value::Start(number) => put_number(text, *number),
        Value::Operator(operator) => text.extend_from_slice(operator.as_bytes()),
        Value::Ref(order_ref) => text.extend_from_slice(order_ref.as_bytes()),
        Value::Tariff(name) => text.extend_from_slice(name.as_bytes()),
        Value::Tender(tender) => put_number(text, tender.cents()),
    }
}

// Adds the text of a value, as it stands in a body.
fn put_told(text: &mut Vec<u8>, value: &Value) -> Result<(), AllocError>
    ensures { OnOk result (text.new.items ≡ text.old.items ++ cell_text (cell_of value.now)) }
{
    match value {
        Value::Base(_) | Value::Number(_) | Value::Start(_) | Value::Tender(_) => {
            put_value(text, value)
        }
        Value::Day(_)
        | Value::Key(_)
        | Value::Meter(_)
        | Value::Operator(_)
        | Value::Ref(_)
        | Value::Tariff(_) => {
            text.extend_from_slice(b"\"")?;
            put_value(text, value)?;
            text.extend_from_slice(b"\"")
        }
    }
}

// Adds the members of a body and the brace that ends it.
fn put_members(
    text: &mut Vec<u8>,
    later: bool,
    names: &[&str],
    values: &[Value],
    steps: Option<&Steps>,
) -> Result<(), AllocError>
    ensures { OnOk result (text.new.items ≡ text.old.items
        ++ members_text later (map now names.now)
        (map cell_of values.now ++ steps_cells steps.entry)) }
{
    let [name, names @ ..] = names else {
        return text.extend_from_slice(b"}");
    };
    let [value, values @ ..] = values else {
        return put_last(text, later, name, steps);
    };
    put_name(text, later, name)?;
    put_told(text, value)?;
    put_members(text, true, names, values, steps)
}

// Adds the last member, the text of steps, and the brace; or the brace alone.
fn put_last(
    text: &mut Vec<u8>,
    later: bool,
    name: &str,
    steps: Option<&Steps>,
) -> Result<(), AllocError>
    ensures { OnOk result (text.new.items ≡ text.old.items
        ++ members_text later (name.now ∷ []) (steps_cells steps.entry)) }
{
    if let Some(steps) = steps {
        put_name(text, later, name)?;
        text.extend_from_slice(b"\"")?;
        put_steps(text, steps)?;
        text.extend_from_slice(b"\"")?;
    }
    text.extend_from_slice(b"}")
}
