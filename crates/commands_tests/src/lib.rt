//! The desk of the program on a machine in memory, whose files, connections or outputs fail. There
//! is no code here. What words print, and what an output that is cut leaves, is in `tools/rows` and
//! `tools/check_program`.
#![tactic(auto)]

#[cfg(test)]
mod folder;
#[cfg(test)]
mod lapses;
#[cfg(test)]
mod options;
#[cfg(test)]
mod selfchecks;
#[cfg(test)]
mod support;
