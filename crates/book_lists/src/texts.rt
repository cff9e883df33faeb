//! The texts of the statements that list. Each goes by a key that its table has.

pub(crate) const TARIFFS_AFTER: &str =
    "SELECT name FROM tariffs WHERE name > ?1 ORDER BY name LIMIT ?2";

pub(crate) const METERS_AFTER: &str =
    "SELECT meter, base, tariff, secret FROM meters WHERE meter > ?1 ORDER BY meter LIMIT ?2";

pub(crate) const SHIFTS_AFTER: &str = "SELECT number, operator, opened, closed FROM shifts \
    WHERE number > ?1 ORDER BY number LIMIT ?2";

// The index of tariff, day and place has the days of a tariff in this order.
pub(crate) const FIRST_DAY_AFTER: &str =
    "SELECT day FROM dated_steps WHERE tariff = ?1 AND day > ?2 ORDER BY day LIMIT 1";
