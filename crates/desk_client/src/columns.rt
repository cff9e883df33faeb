//! The values in the cells of replies: names, moments, money, tokens. Each is read by its rule.

ghost use Rattle.std.specs.Prelude.{◌≡◌, ◌↔◌, IsTrue};
ghost use Rattle.std.specs.Char.{is_ascii_digit};
ghost use Rattle.std.specs.List.{AllPass};
ghost use Rattle.records.specs.Front.{IsFound};
ghost use Rattle.sts_token.specs.Token.{AreTwentyDigits};

use arrayvec::ArrayVec;
use office_rules::{GREATEST_COUNT, MeterNo, Operator, Ref, TariffName};
use records::{Cell, Column};
use sts_fields::{Amount, Base, LAST_TID, Moment, amount_law};
use tariff::{MAX_PRIOR, Tender};

/// A base date, by its year.
#[derive(Clone, Copy)]
pub(crate) struct BaseCell {
    pub(crate) of: Base,
}

impl Column for BaseCell {
    ghost use Rattle.std.specs.Prelude.{⊤};
    ghost use Rattle.records.specs.Cell.{number};
    ghost use Rattle.sts_fields.specs.Base.{year_of};

    ghost cell_of = { λ cell. number (year_of cell.of) };

    ghost keeps = { λ _. ⊤ };

    fn of_cell(told: &Cell<'_>) -> Option<BaseCell> {
        let Some(year) = u32::of_cell(told) else {
            return None;
        };
        match Base::of_year(year) {
            Some(of) => Some(BaseCell { of }),
            None => None,
        }
    }

    fn column_law() {}
}

/// The number of a meter.
#[derive(Clone, Copy)]
pub(crate) struct MeterCell {
    pub(crate) of: MeterNo,
}

impl Column for MeterCell {
    ghost use Rattle.records.specs.Cell.{text};
    ghost use Rattle.office_rules.specs.Name.{IsMeterNo};

    ghost cell_of = { λ cell. text cell.of };

    ghost keeps = { λ cell. IsMeterNo cell.of };

    fn of_cell(told: &Cell<'_>) -> Option<MeterCell> {
        let Cell::Text(bytes) = told else {
            return None;
        };
        match MeterNo::read(bytes) {
            Some(of) => Some(MeterCell { of }),
            None => None,
        }
    }

    fn column_law() {}
}

#[derive(Clone, Copy)]
pub(crate) struct OperatorCell {
    pub(crate) of: Operator,
}

impl Column for OperatorCell {
    ghost use Rattle.records.specs.Cell.{text};
    ghost use Rattle.office_rules.specs.Name.{IsOperator};

    ghost cell_of = { λ cell. text cell.of };

    ghost keeps = { λ cell. IsOperator cell.of };

    fn of_cell(told: &Cell<'_>) -> Option<OperatorCell> {
        let Cell::Text(bytes) = told else {
            return None;
        };
        match Operator::read(bytes) {
            Some(of) => Some(OperatorCell { of }),
            None => None,
        }
    }

    fn column_law() {}
}

#[derive(Clone, Copy)]
pub(crate) struct OrderRefCell {
    pub(crate) of: Ref,
}

impl Column for OrderRefCell {
    ghost use Rattle.records.specs.Cell.{text};
    ghost use Rattle.office_rules.specs.Name.{IsName};

    ghost cell_of = { λ cell. text cell.of };

    ghost keeps = { λ cell. IsName cell.of };

    fn of_cell(told: &Cell<'_>) -> Option<OrderRefCell> {
        let Cell::Text(bytes) = told else {
            return None;
        };
        match Ref::read(bytes) {
            Some(of) => Some(OrderRefCell { of }),
            None => None,
        }
    }

    fn column_law() {}
}

/// The name of a tariff.
#[derive(Clone, Copy)]
pub(crate) struct TariffCell {
    pub(crate) of: TariffName,
}

impl Column for TariffCell {
    ghost use Rattle.records.specs.Cell.{text};
    ghost use Rattle.office_rules.specs.Name.{IsName};

    ghost cell_of = { λ cell. text cell.of };

    ghost keeps = { λ cell. IsName cell.of };

    fn of_cell(told: &Cell<'_>) -> Option<TariffCell> {
        let Cell::Text(bytes) = told else {
            return None;
        };
        match TariffName::read(bytes) {
            Some(of) => Some(TariffCell { of }),
            None => None,
        }
    }

    fn column_law() {}
}

/// The number of a sale or of a shift, 1 to 10^9.
#[derive(Clone, Copy)]
pub(crate) struct RowCell {
    pub(crate) of: u32,
}

impl Column for RowCell {
    ghost use Rattle.records.specs.Cell.{number};
    ghost use Rattle.asks.specs.Value.{IsTargetNumber};

    ghost cell_of = { λ cell. number cell.of };

    ghost keeps = { λ cell. IsTargetNumber cell.of };

    fn of_cell(told: &Cell<'_>) -> Option<RowCell> {
        match u32::of_cell(told) {
            Some(of) if of >= 1 && of <= GREATEST_COUNT as u32 => Some(RowCell { of }),
            _ => None,
        }
    }

    fn column_law() {}
}

/// The identifier of a token.
#[derive(Clone, Copy)]
pub(crate) struct TidCell {
    pub(crate) of: u32,
}

impl Column for TidCell {
    ghost use Rattle.std.specs.Prelude.{◌≤◌};
    ghost use Rattle.records.specs.Cell.{number};
    ghost use Rattle.sts_fields.specs.Tid.{last_tid};

    ghost cell_of = { λ cell. number cell.of };

    ghost keeps = { λ cell. cell.of ≤ last_tid };

    fn of_cell(told: &Cell<'_>) -> Option<TidCell> {
        match u32::of_cell(told) {
            Some(of) if of <= LAST_TID => Some(TidCell { of }),
            _ => None,
        }
    }

    fn column_law() {}
}

/// The tenths of a kWh that were sold to a meter in a month.
#[derive(Clone, Copy)]
pub(crate) struct MonthCell {
    pub(crate) of: u64,
}

impl Column for MonthCell {
    ghost use Rattle.std.specs.Prelude.{◌≤◌};
    ghost use Rattle.records.specs.Cell.{number};
    ghost use Rattle.desk_client.specs.Meter.{most_month_tenths};

    ghost cell_of = { λ cell. number cell.of };

    ghost keeps = { λ cell. cell.of ≤ most_month_tenths };

    fn of_cell(told: &Cell<'_>) -> Option<MonthCell> {
        match told {
            Cell::Number(of) if *of <= MAX_PRIOR => Some(MonthCell { of: *of }),
            _ => None,
        }
    }

    fn column_law() {}
}

/// A moment, by its Unix seconds.
#[derive(Clone, Copy)]
pub(crate) struct MomentCell {
    pub(crate) of: Moment,
}

impl Column for MomentCell {
    ghost use Rattle.records.specs.Cell.{number};
    ghost use Rattle.sts_fields.specs.Moment.{IsMoment};

    ghost cell_of = { λ cell. number cell.of };

    ghost keeps = { λ cell. IsMoment cell.of };

    fn of_cell(told: &Cell<'_>) -> Option<MomentCell> {
        let Some(seconds) = u32::of_cell(told) else {
            return None;
        };
        match Moment::of_secs(i64::from(seconds)) {
            Some(of) => Some(MomentCell { of }),
            None => None,
        }
    }

    fn column_law() {}
}

/// A tender, in cents.
#[derive(Clone, Copy)]
pub(crate) struct TenderCell {
    pub(crate) of: Tender,
}

impl Column for TenderCell {
    ghost use Rattle.records.specs.Cell.{number};
    ghost use Rattle.tariff.specs.Tender.{IsTender};

    ghost cell_of = { λ cell. number cell.of };

    ghost keeps = { λ cell. IsTender cell.of };

    fn of_cell(told: &Cell<'_>) -> Option<TenderCell> {
        let Cell::Number(cents) = told else {
            return None;
        };
        match Tender::read(*cents) {
            Some(of) => Some(TenderCell { of }),
            None => None,
        }
    }

    fn column_law() {}
}

/// An amount, in tenths of a kWh.
#[derive(Clone, Copy)]
pub(crate) struct AmountCell {
    pub(crate) of: Amount,
}

impl Column for AmountCell {
    ghost use Rattle.records.specs.Cell.{number};
    ghost use Rattle.sts_fields.specs.Amount.{IsRepresentable};

    ghost cell_of = { λ cell. number cell.of };

    ghost keeps = { λ cell. IsRepresentable cell.of };

    fn of_cell(told: &Cell<'_>) -> Option<AmountCell> {
        amount_law();
        let Some(tenths) = u32::of_cell(told) else {
            return None;
        };
        match Amount::of_tenths(tenths) {
            Some(of) => Some(AmountCell { of }),
            None => None,
        }
    }

    fn column_law() {
        amount_law();
    }
}

/// A token, in twenty digits.
#[derive(Clone, Copy)]
pub(crate) struct TokenCell {
    pub(crate) of: [u8; 20],
}

impl Column for TokenCell {
    ghost use Rattle.records.specs.Cell.{text};
    ghost use Rattle.sts_token.specs.Token.{AreTwentyDigits};

    ghost cell_of = { λ cell. text cell.of };

    ghost keeps = { λ cell. AreTwentyDigits cell.of };

    fn of_cell(told: &Cell<'_>) -> Option<TokenCell> {
        let Cell::Text(bytes) = told else {
            return None;
        };
        match token_of(bytes) {
            Some(of) => Some(TokenCell { of }),
            None => None,
        }
    }

    fn column_law() {}
}

// The twenty digits that a text is.
fn token_of(value: &[u8]) -> Option<[u8; 20]>
    ensures { IsFound (λ digits. AreTwentyDigits digits × (value.now ≡ digits)) result }
{
    if value.len() != 20 || !are_digits(value) {
        return None;
    }
    let mut digits = [0; 20];
    digits.copy_from_slice(value);
    Some(digits)
}

// Whether each byte is a digit.
pub(crate) fn are_digits(value: &[u8]) -> bool
    ensures { IsTrue result ↔ AllPass is_ascii_digit value.now }
{
    value.iter().all(|byte| byte.is_ascii_digit())
}

// ---- the columns of records, by their fields

/// A sale.
pub(crate) type SaleColumns = (
    BaseCell,
    (
        u32,
        (
            MeterCell,
            (MomentCell, (RowCell, (OperatorCell, PaidColumns))),
        ),
    ),
);

// Its columns from the price on.
type PaidColumns = (
    u32,
    (
        OrderRefCell,
        (
            RowCell,
            (TenderCell, (AmountCell, (TidCell, (TokenCell, ())))),
        ),
    ),
);

/// A meter.
pub(crate) type MeterColumns = (
    BaseCell,
    (MeterCell, (Option<RowCell>, (TariffCell, (MonthCell, ())))),
);

pub(crate) type QuoteColumns = (
    u32,
    (
        MeterCell,
        (u32, (TariffCell, (TenderCell, (AmountCell, ())))),
    ),
);

/// The running totals of a shift.
pub(crate) type TotalsColumns = (u64, (u64, (RowCell, (u64, ()))));

/// A meter of a list.
pub(crate) type ListedMeterColumns = (BaseCell, (MeterCell, (TariffCell, ())));

/// A shift of a list.
pub(crate) type ListedShiftColumns = (
    u64,
    (
        Option<MomentCell>,
        (RowCell, (MomentCell, (OperatorCell, (u64, (u64, ()))))),
    ),
);

/// A refusal: its name and its number.
pub(crate) type RefusalColumns = (ArrayVec<u8, 32>, (u32, ()));

/// A refusal of a row: the cause, the refusal's name and number, and the row.
pub(crate) type RowRefusalColumns = (ArrayVec<u8, 32>, (ArrayVec<u8, 32>, (u32, (u32, ()))));
