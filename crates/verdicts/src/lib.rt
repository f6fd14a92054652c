// What the pixel calls answer, before anything is written: the refusals 1 to 8, each by a judge of its own.
#![tactic(auto)]

pub mod samples; // The search for a number out of range.
pub mod judge;
