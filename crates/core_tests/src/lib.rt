//! Tests of the rules, which have no code of their own, and witnesses of the laws above them.
//!
//! Amounts, identifiers and the calendar, tokens, the simulated meter, tariffs, the office in plain
//! vectors, and the texts that it prints and reads. What is expected was worked out by hand or by
//! Python, from `docs/PROFILE.md`, `docs/OFFICE.md` and `docs/TEXTS.md`.
#![tactic(auto)]

#[cfg(test)]
mod faults;
#[cfg(test)]
mod laws;
#[cfg(test)]
mod meter;
#[cfg(test)]
mod office;
#[cfg(test)]
mod rules;
#[cfg(test)]
mod tariffs;
#[cfg(test)]
mod texts;
#[cfg(test)]
mod tokens;
