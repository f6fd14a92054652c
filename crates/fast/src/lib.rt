// The passes of a block at depth 8 whose kinds are both DCT: sixteen lines at a time, at 16 bits.
#![tactic(auto)]

pub mod block_rows; // The rows, from the coefficients to the work area.
pub mod ready; // The work area of a block, ready for the columns.
pub mod columns; // The columns, from the work area into the picture.
pub mod add; // A whole block.
