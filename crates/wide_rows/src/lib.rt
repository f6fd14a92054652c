// Rows of sixteen numbers, one of each line, at 16 bits.
#![tactic(auto)]

pub mod rows; // Sums of products with the numbers of a table, row by row.

// Two rows of sixteen numbers.
#[derive(Clone, Copy)]
pub struct Two {
    pub lo: [i32; 16],
    pub hi: [i32; 16],
}
