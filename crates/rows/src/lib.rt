// What the kernels are made of: dense products by rows, in place, the butterfly, and the DCT of few inputs.
#![tactic(auto)]

pub mod sums; // Sums of products, and copies.
pub mod short; // Sums of products of numbers that 16 bits hold.
pub mod square; // The product of a table and as many numbers as it has rows, in place.
pub mod butterfly; // Even and odd inputs, and the butterfly that joins their halves.
pub mod few; // The DCT of numbers of which at most four are live.
