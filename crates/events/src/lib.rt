// What glass writes on standard output: docs/GLASS.md has the words.
//     log         the lines of events
//     picture     a plane as PGM
#![tactic(auto)]

pub mod log;
pub mod picture;
