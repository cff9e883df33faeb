//! What takes the tables of an office back to an older format.

/// By format, from 1 on: statements that take tables of the present format back to it. To take them
/// back to 1 or 2, no meter may have had another base date, and no tariff further steps; to 3, no
/// tariff may.
pub static OLDER: [&str; 3] = [
    "DROP TABLE dated_steps; DROP TABLE meter_bases; DROP TABLE shift_totals; \
    DROP TABLE month_tenths; DROP TABLE last_ids; UPDATE about SET format = 1",
    "DROP TABLE dated_steps; DROP TABLE meter_bases; UPDATE about SET format = 2",
    "DROP TABLE dated_steps; UPDATE about SET format = 3",
];
