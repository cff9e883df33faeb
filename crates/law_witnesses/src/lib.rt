//! Proved tests that make values which meet the premises of laws, by running the program's code,
//! and conclude an equation from each law. There is no code here.
#![tactic(auto)]

#[cfg(test)]
mod answering;
#[cfg(test)]
mod asking;
#[cfg(test)]
mod breaking;
#[cfg(test)]
mod callers;
#[cfg(test)]
mod commands;
#[cfg(test)]
mod computers;
#[cfg(test)]
mod crashes;
#[cfg(test)]
mod desks;
#[cfg(test)]
mod files;
#[cfg(test)]
mod kept;
#[cfg(test)]
mod lapses;
#[cfg(test)]
mod messages;
#[cfg(test)]
mod offices;
#[cfg(test)]
mod older;
#[cfg(test)]
mod programs;
#[cfg(test)]
mod questions;
#[cfg(test)]
mod recorded;
#[cfg(test)]
mod routes;
#[cfg(test)]
mod runs;
#[cfg(test)]
mod serving;
