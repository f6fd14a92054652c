// What a case stream (docs/CASES.md) is made of.
#![tactic(auto)]

pub mod nums; // Numbers as bytes, and bits as signed numbers.
pub mod floats; // f32 numbers by their bits.
pub mod slices; // Words and slices, read and written.
