// Reads a script on standard input (docs/GLASS.md), plays it, and writes what happens and the pictures on standard output.
// The files stdin and stdout hold a script and what it gives; tools/record-glass writes both.
//     commands    the commands that change the screen
//     look        those that only look at it
//     script      lines into commands
#![tactic(auto)]

use std::io;

mod commands;
mod look;
mod script;

fn main(rt: HostRuntime) -> io::Result<()> {
    let mut text = [0u8; 262144];
    let mut list = [0i32; 1028];
    let mut room = [0i32; 81920];
    let mut kept = [0i32; 81920];
    let mut steps = [0u32; 16385];
    let mut levels = [0i32; 65536];
    let mut index = [0u32; 4096];
    script::play(
        &mut rt.stdin(),
        &rt,
        &mut text,
        &mut list,
        &mut room,
        &mut kept,
        &mut steps,
        &mut levels,
        &mut index,
    )
}
