//! Asks, as they are read of messages.

ghost use Rattle.std.specs.Prelude.{◌≡◌, ◌≢◌, ◌+◌, ◌≤◌, ◌<◌, ◌++◌, ◌∷◌, ◌↔◌, ℕ, List, IsTrue};
ghost use Rattle.std.specs.Prelude.{[], All, IfOk, MatchOption, eqb, false, length, map, slice_index, take};
ghost use Rattle.records.specs.Front.{IsFound};
ghost use Rattle.records.specs.Record.{now};
ghost use Rattle.serde_json.specs.View.{view};
ghost use Rattle.asks.specs.Ask.{IsAskOf, IsReadOf};
ghost use Rattle.asks.specs.Body.{AreMembers, AreStepsAt, SaysObject};
ghost use Rattle.asks.specs.Endpoint.{endpoint_of, place_of};
ghost use Rattle.asks.specs.Fault.{IsFoundInBody, PutsFoundInBody};
ghost use Rattle.asks.specs.Parts.{parts, parts_of};
ghost use Rattle.asks.specs.Target.{AreIn, IsRest, LacksSlash, Names, PutsFound, end_text};
ghost use Rattle.asks.specs.Target.{target_kinds};
ghost use Rattle.asks.specs.Value.{AreOf};

use crate::ask::{Ask, Bulk};
use crate::csv::Csv;
use crate::endpoint::{Body, Slot};
use crate::fault::AskFault;
use crate::kind::AskKind;
use crate::parts::ask_of;
use crate::texts::days_law;
use crate::value::{Value, ValueKind};
use arrayvec::ArrayVec;
use records::{Cell, cell_in, has_count};
use serde_json::Value as Json;
use std::alloc::Global;
use tariff::{Steps, StepsFault, steps_text_law};

impl AskKind {
    /// The values that a target of this kind names, if it names any as the kind wants them.
    pub fn values_in(self, target: &[u8]) -> Option<ArrayVec<Value, 2>>
        ensures { IsFound (λ values. Names (endpoint_of self) target.now values.items) result }
    {
        let endpoint = self.endpoint();
        let mut values = ArrayVec::new();
        if read_places(endpoint.slots, endpoint.end, target, &mut values) {
            Some(values)
        } else {
            None
        }
    }

    /// The ask of this kind whose target names these values, by its body; or why there is none. A
    /// body that is not looked at takes no memory.
    pub fn ask_in<'b>(
        self,
        alloc: Global,
        target: &[Value],
        body: &'b [u8],
    ) -> Result<Ask<'b>, AskFault>
        requires { AreOf (target_kinds (endpoint_of self)) target.now }
        ensures { IsFoundInBody (λ ask. IsReadOf self target.now body.now (parts_of ask)) result }
    {
        match self.endpoint().body {
            Body::Unread => ask_by(self, target, &[], Bulk::Nothing),
            Body::Rows => ask_by(self, target, &[], Bulk::Rows(Csv::new(body))),
            Body::Object(names, kinds) => {
                let mut values = ArrayVec::new();
                match read_object(alloc, names, kinds, body, &mut values) {
                    Ok(bulk) => ask_by(self, target, &values, bulk),
                    Err(fault) => Err(fault),
                }
            }
        }
    }
}

// The ask of these parts.
fn ask_by<'b>(
    kind: AskKind,
    target: &[Value],
    body: &[Value],
    bulk: Bulk<'b>,
) -> Result<Ask<'b>, AskFault>
    ensures ask { IsAskOf (parts kind target.now body.now bulk.entry) result }
    ensures back { IfOk result (λ ask. parts_of ask ≡ parts kind target.now body.now bulk.entry) }
{
    match ask_of(kind, target, body, bulk) {
        Some(ask) => Ok(ask),
        None => Err(AskFault::OutsideRule),
    }
}

// Adds the values of the places that a text has, with the end behind them.
fn read_places(slots: &[Slot], end: &str, text: &[u8], values: &mut ArrayVec<Value, 2>) -> bool
    requires { length values.old.items + length slots.now ≤ 2 }
    ensures { PutsFound (AreIn (map place_of slots.now) end.now text.now)
        values.old.items values.new.items result }
{
    days_law();
    let [slot, slots @ ..] = slots else {
        return is_end(end, text);
    };
    let Some((piece, rest)) = piece_behind(slot.front, text) else {
        return false;
    };
    let Some(value) = Value::of_piece(slot.kind, piece) else {
        return false;
    };
    values.push(value);
    read_places(slots, end, rest, values)
}

// Whether a text is the end of a target.
fn is_end(end: &str, text: &[u8]) -> bool
    ensures { IsTrue result ↔ (text.now ≡ end_text end.now) }
{
    if end.is_empty() {
        return text.is_empty();
    }
    match text.split_first() {
        Some((b'/', words)) => words == end.as_bytes(),
        _ => false,
    }
}

// What stands behind a slash and a front up to the next slash or the end, and the text from there
// on.
fn piece_behind<'t>(front: &str, text: &'t [u8]) -> Option<(&'t [u8], &'t [u8])>
    ensures { MatchOption result
        ((piece rest : List ℕ) → LacksSlash piece → IsRest rest
        → text.now ≢ 47 ∷ (front.now ++ (piece ++ rest)))
        (λ found. LacksSlash found.0.now × IsRest found.1.now
        × (text.now ≡ 47 ∷ (front.now ++ (found.0.now ++ found.1.now)))) }
{
    let Some(text) = text.strip_prefix(b"/") else {
        return None;
    };
    match text.strip_prefix(front.as_bytes()) {
        Some(text) => Some(text.split_at(len_before_slash(text))),
        None => None,
    }
}

// How many bytes stand in front of the first slash, or all of them.
fn len_before_slash(text: &[u8]) -> usize
    ensures within { result ≤ length text.now }
    ensures before { All (λ byte. eqb byte 47 ≡ false) (take result text.now) }
    ensures found { result < length text.now → slice_index text.now result ≡ 47 }
{
    text.iter()
        .position(|byte| *byte == b'/')
        .unwrap_or(text.len())
}

// Adds the values of an object of JSON with these names; and what stands beside them.
fn read_object<'b>(
    alloc: Global,
    names: &[&str],
    kinds: &[ValueKind],
    body: &[u8],
    values: &mut ArrayVec<Value, 4>,
) -> Result<Bulk<'b>, AskFault>
    requires { length values.old.items + length kinds.now ≤ 4 }
    ensures { PutsFoundInBody (SaysObject (map now names.now) kinds.now body.now)
        values.old.items values.new.items result }
{
    match Json::from_slice(alloc, body) {
        Ok(json) if has_count(&json, names.len()) => read_members(
            alloc, names, kinds, &json, values,
        ),
        Ok(_) => Err(AskFault::OutsideRule),
        Err(error) if error.is_memory() => Err(AskFault::Memory),
        Err(_) => Err(AskFault::OutsideRule),
    }
}

// Adds the values of the members of these names; and what stands beside them.
fn read_members<'b>(
    alloc: Global,
    names: &[&str],
    kinds: &[ValueKind],
    json: &Json,
    values: &mut ArrayVec<Value, 4>,
) -> Result<Bulk<'b>, AskFault>
    requires { length values.old.items + length kinds.now ≤ 4 }
    ensures { PutsFoundInBody (AreMembers (map now names.now) kinds.now (view json.now))
        values.old.items values.new.items result }
{
    let [kind, kinds @ ..] = kinds else {
        return read_bulk(alloc, names, json);
    };
    let [name, names @ ..] = names else {
        return Err(AskFault::OutsideRule);
    };
    let Some(cell) = cell_in(json, name) else {
        return Err(AskFault::OutsideRule);
    };
    let Some(value) = Value::of_cell(*kind, &cell) else {
        return Err(AskFault::OutsideRule);
    };
    values.push(value);
    read_members(alloc, names, kinds, json, values)
}

// What stands beside the values: the steps of the one name that is left, or nothing.
fn read_bulk<'b>(alloc: Global, names: &[&str], json: &Json) -> Result<Bulk<'b>, AskFault>
    ensures { IsFoundInBody (AreMembers (map now names.now) [] (view json.now) []) result }
{
    match names {
        [] => Ok(Bulk::Nothing),
        [name] => match steps_in(alloc, name, json) {
            Ok(steps) => Ok(Bulk::Steps(steps)),
            Err(fault) => Err(fault),
        },
        _ => Err(AskFault::OutsideRule),
    }
}

// The steps whose text the member of a name is.
fn steps_in(alloc: Global, name: &str, json: &Json) -> Result<Steps, AskFault>
    ensures { IsFoundInBody (AreStepsAt name.now (view json.now)) result }
{
    steps_text_law();
    let Some(cell) = cell_in(json, name) else {
        return Err(AskFault::OutsideRule);
    };
    let Cell::Text(text) = cell else {
        return Err(AskFault::OutsideRule);
    };
    match Steps::of_text(alloc, text) {
        Ok(steps) => Ok(steps),
        Err(StepsFault::Memory) => Err(AskFault::Memory),
        Err(_) => Err(AskFault::OutsideRule),
    }
}
