ghost use Rattle.std.specs.Prelude.{◌≡◌, MatchOption};
ghost use Rattle.office_rules.specs.Decision.Refusals.{IsOfNoRow, refusal_category, refusal_name};
ghost use Rattle.office_rules.specs.Decision.Refusals.{refusal_number};
ghost use Rattle.office_rules.specs.declared.decision.refusal.Refusal.{Refusal as WhyRefused};

use crate::decision::{Category, RowCause};
use std::alloc::AllocError;
use sts_fields::TidFault;
use thiserror::Error;

/// Why the office refuses a request (`docs/OFFICE.md`, "Refusals").
#[derive(Clone, Copy, Debug, PartialEq, Eq, Hash, Error)]
pub enum Refusal {
    #[error("the ref was used for another order")]
    RefReused,
    #[error("the operator has no open shift")]
    NoShift,
    #[error("the operator has an open shift")]
    ShiftOpen,
    #[error("there is no such meter")]
    NoMeter,
    #[error("there is no such tariff")]
    NoTariff,
    #[error("something else is there under this name")]
    Differs,
    #[error("the moment is before the meter's base date")]
    BeforeBase,
    #[error("no identifier is left for this meter")]
    IdentifiersSpent,
    #[error("the next identifier is more than a day ahead")]
    IdentifierAhead,
    #[error("the tender buys nothing")]
    TooLittle,
    #[error("the office is full")]
    OfficeFull,
    #[error("there is no such sale")]
    NoSale,
    #[error("there is no such shift")]
    NoSuchShift,
    /// The number of the row, from 1 on (the header of a file is row 0), and why.
    #[error("row {0} of the import: {1}")]
    ImportRow(u32, RowCause),
    #[error("out of memory")]
    Memory,
    #[error("the store failed")]
    Store,
    #[error("the office has stopped")]
    Stopped,
    #[error("the meter has a later base date")]
    NotLater,
    #[error("the day of the steps has begun")]
    DayPast,
    #[error("the meter has sales")]
    HasSales,
}

impl Refusal {
    /// The refusal's number (`docs/OFFICE.md`, "Refusals").
    pub fn number(self) -> u8
        ensures { result ≡ refusal_number self }
    {
        match self {
            Refusal::RefReused => 1,
            Refusal::NoShift => 2,
            Refusal::ShiftOpen => 3,
            Refusal::NoMeter => 4,
            Refusal::NoTariff => 5,
            Refusal::Differs => 6,
            Refusal::BeforeBase => 7,
            Refusal::IdentifiersSpent => 8,
            Refusal::IdentifierAhead => 9,
            Refusal::TooLittle => 10,
            Refusal::OfficeFull => 11,
            Refusal::NoSale => 12,
            Refusal::NoSuchShift => 13,
            Refusal::ImportRow(..) => 14,
            Refusal::Memory => 15,
            Refusal::Store => 16,
            Refusal::Stopped => 17,
            Refusal::NotLater => 18,
            Refusal::DayPast => 19,
            Refusal::HasSales => 20,
        }
    }

    /// The refusal of no row that has this number: the other way of `number`.
    pub fn of_number(number: u32) -> Option<Refusal>
        ensures { MatchOption result
            ((refusal : WhyRefused) → ¬ (IsOfNoRow refusal × (refusal_number refusal ≡ number)))
            (λ refusal. IsOfNoRow refusal × (refusal_number refusal ≡ number)) }
    {
        match number {
            1 => Some(Refusal::RefReused),
            2 => Some(Refusal::NoShift),
            3 => Some(Refusal::ShiftOpen),
            4 => Some(Refusal::NoMeter),
            5 => Some(Refusal::NoTariff),
            6 => Some(Refusal::Differs),
            7 => Some(Refusal::BeforeBase),
            8 => Some(Refusal::IdentifiersSpent),
            9 => Some(Refusal::IdentifierAhead),
            10 => Some(Refusal::TooLittle),
            11 => Some(Refusal::OfficeFull),
            12 => Some(Refusal::NoSale),
            13 => Some(Refusal::NoSuchShift),
            15 => Some(Refusal::Memory),
            16 => Some(Refusal::Store),
            17 => Some(Refusal::Stopped),
            18 => Some(Refusal::NotLater),
            19 => Some(Refusal::DayPast),
            20 => Some(Refusal::HasSales),
            _ => None,
        }
    }

    /// The refusal's name, as it is printed.
    pub fn name(self) -> &'static str
        ensures { result.now ≡ refusal_name self }
    {
        match self {
            Refusal::RefReused => "RefReused",
            Refusal::NoShift => "NoShift",
            Refusal::ShiftOpen => "ShiftOpen",
            Refusal::NoMeter => "NoMeter",
            Refusal::NoTariff => "NoTariff",
            Refusal::Differs => "Differs",
            Refusal::BeforeBase => "BeforeBase",
            Refusal::IdentifiersSpent => "IdentifiersSpent",
            Refusal::IdentifierAhead => "IdentifierAhead",
            Refusal::TooLittle => "TooLittle",
            Refusal::OfficeFull => "OfficeFull",
            Refusal::NoSale => "NoSale",
            Refusal::NoSuchShift => "NoSuchShift",
            Refusal::ImportRow(..) => "ImportRow",
            Refusal::Memory => "Memory",
            Refusal::Store => "Store",
            Refusal::Stopped => "Stopped",
            Refusal::NotLater => "NotLater",
            Refusal::DayPast => "DayPast",
            Refusal::HasSales => "HasSales",
        }
    }

    /// What kind of reason it has.
    pub fn category(self) -> Category
        ensures { result ≡ refusal_category self }
    {
        match self {
            Refusal::NoMeter | Refusal::NoTariff | Refusal::NoSale | Refusal::NoSuchShift => {
                Category::Missing
            }
            Refusal::RefReused
            | Refusal::NoShift
            | Refusal::ShiftOpen
            | Refusal::Differs
            | Refusal::BeforeBase
            | Refusal::IdentifiersSpent
            | Refusal::IdentifierAhead
            | Refusal::OfficeFull
            | Refusal::NotLater
            | Refusal::DayPast
            | Refusal::HasSales => Category::Forbidden,
            Refusal::TooLittle => Category::Unfit,
            Refusal::ImportRow(row, cause) => Category::UnfitRow(row, cause),
            Refusal::Memory | Refusal::Store | Refusal::Stopped => Category::Unable,
        }
    }
}

impl From<TidFault> for Refusal {
    ghost use Rattle.std.specs.Prelude.{◌≡◌};
    ghost use Rattle.office_rules.specs.Decision.{refusal_of};

    ghost from_gives = { λ fault refusal. refusal ≡ refusal_of fault };

    fn from(fault: TidFault) -> Refusal {
        match fault {
            TidFault::BeforeBase => Refusal::BeforeBase,
            TidFault::PastEnd | TidFault::IdentifiersSpent => Refusal::IdentifiersSpent,
            TidFault::IdentifierAhead => Refusal::IdentifierAhead,
        }
    }
}

impl From<AllocError> for Refusal {
    ghost use Rattle.std.specs.Prelude.{◌≡◌};
    ghost use Rattle.office_rules.specs.declared.decision.refusal.Refusal.TheVariants.{Memory};

    ghost from_gives = { λ _ refusal. refusal ≡ Memory };

    fn from(_error: AllocError) -> Refusal {
        Refusal::Memory
    }
}
