//! What an office holds.

mod meter;
mod row;
mod rows;
mod sale;
mod sales;
mod shift;

pub use meter::Meter;
pub use row::Row;
pub use rows::Rows;
pub use sale::Sale;
pub use sales::Sales;
pub use shift::Shift;
