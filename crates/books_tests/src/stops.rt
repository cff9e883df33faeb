//! The office on disks that stop at each of their calls. After each stop the office is opened again
//! on what the disks hold, and what was acknowledged has to stand there.

mod disks;
mod doubts;
mod imports;
mod openings;
mod sales;
pub(crate) mod scripts;
