//! Tests of the office in its file, which have no code of their own, also on disks that stop at
//! each of their calls.
//!
//! Each reply of the books is compared with the one that the office over plain lists gives to the
//! same request. What is expected was worked out by hand, from `docs/OFFICE.md`, `docs/PROFILE.md`
//! and `docs/PROMISE.md`, or computed by `tools/oracle`.
#![tactic(auto)]

#[cfg(test)]
mod look_ups;
#[cfg(test)]
mod older;
#[cfg(test)]
mod pages;
#[cfg(test)]
mod sentences;
#[cfg(test)]
mod shown;
#[cfg(test)]
mod sizes;
#[cfg(test)]
mod stops;
