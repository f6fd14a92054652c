// Lists of signed numbers on standard output, a line to a list: what the programs write.
//     input     bytes of the input: what the programs read
#![tactic(auto)]

use std::io;

pub mod input;

// A list, on a line: each number with its sign, after a space.
pub fn line(rt: &impl Print, list: &[i32]) -> io::Result<()> {
    for z in list {
        print!(rt; " {z}")?;
    }
    println!(rt)
}
