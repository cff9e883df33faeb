ghost use Rattle.std.specs.Prelude.{◌≡◌, map};
ghost use Rattle.asks.specs.Endpoint.{all_kinds, endpoint_of, place_of, posting, reading, row_of, shape_of};

use crate::endpoint::{Body, Endpoint, Grants, Slot};
use crate::value::ValueKind;
use conversation::Method;

/// The kinds of asks: each has a target, a method and a body of its own.
#[derive(Clone, Copy, Debug, PartialEq, Eq, Hash)]
pub enum AskKind {
    ImportMeters,
    ImportTariffs,
    AddTariff,
    AddSteps,
    WithdrawSteps,
    AddMeter,
    SetTariff,
    MoveBase,
    SetKey,
    OpenShift,
    CloseShift,
    Sell,
    Reprint,
    Receipt,
    ShiftReport,
    Health,
    Meter,
    LastSale,
    SaleOfRef,
    Quote,
    ShiftTotals,
    FirstTariffs,
    TariffsAfter,
    FirstMeters,
    MetersAfter,
    ShiftsAfter,
    SalesAfter,
}

static METER: [Slot; 1] = [Slot {
    front: "meters/",
    kind: ValueKind::Meter,
}];

static TARIFF: [Slot; 1] = [Slot {
    front: "tariffs/",
    kind: ValueKind::Tariff,
}];

static SHIFT: [Slot; 1] = [Slot {
    front: "shifts/",
    kind: ValueKind::Number,
}];

static SALE: [Slot; 1] = [Slot {
    front: "sales/",
    kind: ValueKind::Number,
}];

static STEPS: [Slot; 2] = [
    Slot {
        front: "tariffs/",
        kind: ValueKind::Tariff,
    },
    Slot {
        front: "steps/",
        kind: ValueKind::Day,
    },
];

static SALE_OF_REF: [Slot; 2] = [
    Slot {
        front: "operators/",
        kind: ValueKind::Operator,
    },
    Slot {
        front: "sales/",
        kind: ValueKind::Ref,
    },
];

static QUOTE: [Slot; 2] = [
    Slot {
        front: "meters/",
        kind: ValueKind::Meter,
    },
    Slot {
        front: "quote?tender=",
        kind: ValueKind::Tender,
    },
];

static TARIFFS_AFTER: [Slot; 1] = [Slot {
    front: "tariffs?after=",
    kind: ValueKind::Tariff,
}];

static METERS_AFTER: [Slot; 1] = [Slot {
    front: "meters?after=",
    kind: ValueKind::Meter,
}];

static SHIFTS_AFTER: [Slot; 1] = [Slot {
    front: "shifts?after=",
    kind: ValueKind::Start,
}];

static SALES_AFTER: [Slot; 1] = [Slot {
    front: "sales?after=",
    kind: ValueKind::Start,
}];

// Each kind once.
static ALL: [AskKind; 27] = [
    AskKind::ImportMeters,
    AskKind::ImportTariffs,
    AskKind::AddTariff,
    AskKind::AddSteps,
    AskKind::WithdrawSteps,
    AskKind::AddMeter,
    AskKind::SetTariff,
    AskKind::MoveBase,
    AskKind::SetKey,
    AskKind::OpenShift,
    AskKind::CloseShift,
    AskKind::Sell,
    AskKind::Reprint,
    AskKind::Receipt,
    AskKind::ShiftReport,
    AskKind::Health,
    AskKind::Meter,
    AskKind::LastSale,
    AskKind::SaleOfRef,
    AskKind::Quote,
    AskKind::ShiftTotals,
    AskKind::FirstTariffs,
    AskKind::TariffsAfter,
    AskKind::FirstMeters,
    AskKind::MetersAfter,
    AskKind::ShiftsAfter,
    AskKind::SalesAfter,
];

impl AskKind {
    /// Each kind once.
    pub fn all() -> &'static [AskKind]
        ensures { result.now ≡ all_kinds }
    {
        &ALL
    }

    /// How it is asked, and what it grants.
    pub fn endpoint(self) -> Endpoint
        ensures { row_of result ≡ endpoint_of self }
    {
        match self {
            AskKind::ImportMeters => posting(&[], "imports/meters", Body::Rows, Grants::Imported),
            AskKind::ImportTariffs => posting(&[], "imports/tariffs", Body::Rows, Grants::Imported),
            AskKind::AddTariff => posting(
                &[],
                "tariffs",
                Body::Object(&["name", "steps"], &[ValueKind::Tariff]),
                Grants::Done,
            ),
            AskKind::AddSteps => posting(
                &TARIFF,
                "steps",
                Body::Object(&["from", "steps"], &[ValueKind::Day]),
                Grants::Done,
            ),
            AskKind::WithdrawSteps => Endpoint {
                method: Method::Delete,
                slots: &STEPS,
                end: "",
                body: Body::Unread,
                grants: Grants::Withdrawn,
            },
            AskKind::AddMeter => posting(
                &[],
                "meters",
                Body::Object(
                    &["base", "key", "meter", "tariff"],
                    &[
                        ValueKind::Base,
                        ValueKind::Key,
                        ValueKind::Meter,
                        ValueKind::Tariff,
                    ],
                ),
                Grants::Done,
            ),
            AskKind::SetTariff => posting(
                &METER,
                "tariff",
                Body::Object(&["tariff"], &[ValueKind::Tariff]),
                Grants::Done,
            ),
            AskKind::MoveBase => posting(
                &METER,
                "base",
                Body::Object(&["base"], &[ValueKind::Base]),
                Grants::Done,
            ),
            AskKind::SetKey => posting(
                &METER,
                "key",
                Body::Object(&["key"], &[ValueKind::Key]),
                Grants::Done,
            ),
            AskKind::OpenShift => posting(
                &[],
                "shifts",
                Body::Object(&["operator"], &[ValueKind::Operator]),
                Grants::Shift,
            ),
            AskKind::CloseShift => posting(
                &[],
                "shifts/close",
                Body::Object(&["operator"], &[ValueKind::Operator]),
                Grants::Shift,
            ),
            AskKind::Sell => posting(
                &[],
                "sales",
                Body::Object(
                    &["meter", "operator", "ref", "tender"],
                    &[
                        ValueKind::Meter,
                        ValueKind::Operator,
                        ValueKind::Ref,
                        ValueKind::Tender,
                    ],
                ),
                Grants::Sale,
            ),
            AskKind::Reprint => reading(&SALE, "", Grants::Sale),
            AskKind::Receipt => reading(&SALE, "receipt", Grants::Paper),
            AskKind::ShiftReport => reading(&SHIFT, "", Grants::Paper),
            AskKind::Health => reading(&[], "health", Grants::Health),
            AskKind::Meter => reading(&METER, "", Grants::Meter),
            AskKind::LastSale => reading(&METER, "last", Grants::Paper),
            AskKind::SaleOfRef => reading(&SALE_OF_REF, "", Grants::Sale),
            AskKind::Quote => reading(&QUOTE, "", Grants::Quote),
            AskKind::ShiftTotals => reading(&SHIFT, "totals", Grants::Totals),
            AskKind::FirstTariffs => reading(&[], "tariffs?after=", Grants::Tariffs),
            AskKind::TariffsAfter => reading(&TARIFFS_AFTER, "", Grants::Tariffs),
            AskKind::FirstMeters => reading(&[], "meters?after=", Grants::Meters),
            AskKind::MetersAfter => reading(&METERS_AFTER, "", Grants::Meters),
            AskKind::ShiftsAfter => reading(&SHIFTS_AFTER, "", Grants::Shifts),
            AskKind::SalesAfter => reading(&SALES_AFTER, "", Grants::Sales),
        }
    }
}

// A row that is asked by GET.
fn reading(slots: &'static [Slot], end: &'static str, grants: Grants) -> Endpoint
    ensures { row_of result ≡ reading (map place_of slots.now) end.now grants }
{
    Endpoint {
        method: Method::Get,
        slots,
        end,
        body: Body::Unread,
        grants,
    }
}

// One that is asked by POST, with a body of this kind.
fn posting(slots: &'static [Slot], end: &'static str, body: Body, grants: Grants) -> Endpoint
    ensures { row_of result ≡ posting (map place_of slots.now) end.now (shape_of body) grants }
{
    Endpoint {
        method: Method::Post,
        slots,
        end,
        body,
        grants,
    }
}
