//! Requests over plain vectors: imports and a report at their greatest size, an office that is
//! nearly full, mistakes that are taken back, and a transform of the caller's own.

mod decisions;
mod imports;
mod reports;
mod taken_back;
mod transforms;
