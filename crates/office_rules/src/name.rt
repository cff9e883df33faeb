//! The names that requests carry: checked texts that are kept in place.

mod meter_no;
mod operator;
mod order_ref;
mod short_text;
mod tariff_name;

pub use meter_no::MeterNo;
pub use operator::Operator;
pub use order_ref::Ref;
pub use tariff_name::TariffName;
