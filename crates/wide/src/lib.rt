// Sixteen lines side by side, at 16 bits.
#![tactic(auto)]

pub mod short; // The DCT of 4, 8 and 16 numbers.
pub mod long; // The DCT of 32 numbers.
pub mod dct; // The DCT of each of these lengths.
