//! Tests of the desk, which have no code of their own.
//!
//! Messages as they are written, cut anywhere, and with each fault; bodies, routes, replies and the
//! sentences of faults; and whole conversations, with an office in memory or in a file too, beside
//! the office over plain lists. What is expected was worked out by hand, from `docs/DESK.md` and
//! `docs/OFFICE.md`, or computed by `tools/oracle`. Messages at their limits are in
//! `tools/check_desk`.
#![tactic(auto)]

#[cfg(test)]
mod bodies;
#[cfg(test)]
mod cuts;
#[cfg(test)]
mod interim;
#[cfg(test)]
mod listed;
#[cfg(test)]
mod lists;
#[cfg(test)]
mod messages;
#[cfg(test)]
mod offices;
#[cfg(test)]
mod paced;
#[cfg(test)]
mod prepared;
#[cfg(test)]
mod replies;
#[cfg(test)]
mod routes;
#[cfg(test)]
mod sentences;
#[cfg(test)]
mod streams;
#[cfg(test)]
mod texts;
#[cfg(test)]
mod words;
