// Runs the chroma call and writes what it leaves: a line of u and a line of v for each call.
// The file stdout has the unchanged Rust's answers to the same calls; tools/record-chroma writes it.
#![tactic(auto)]

use lines::line;
use std::io;

// P9 of document 01 in the first four, and the next half in the others.
const HALVES: [i32; 8] = [128, -128, 127, -127, 384, -384, 383, -383];

const ZEROS: [i32; 8] = [0, 0, 0, 0, 0, 0, 0, 0];

// The ends of the range at depths 8, 10 and 12, with each other, with 0 and with 1.
const U8: [i32; 8] = [32767, -32768, 32767, -32768, 0, 32767, 1, -1];

const V8: [i32; 8] = [32767, 32767, -32768, -32768, -32768, 0, -1, 32767];

const U10: [i32; 8] = [131071, -131072, 131071, -131072, 0, 131071, 1, -1];

const V10: [i32; 8] = [131071, 131071, -131072, -131072, -131072, 0, -1, 131071];

const U12: [i32; 8] = [524287, -524288, 524287, -524288, 0, 524287, 1, -1];

const V12: [i32; 8] = [524287, 524287, -524288, -524288, -524288, 0, -1, 524287];

// Angles by their sine and cosine.
const ANGLES: [(i32, i32); 8] = [
    (0, 256),
    (256, 0),
    (256, 256),
    (-256, 256),
    (-256, -256),
    (181, 181),
    (-98, 237),
    (1, -1),
];

// One call, and what it leaves.
fn run(
    rt: &impl Print,
    mut u: [i32; 8],
    mut v: [i32; 8],
    sina: i32,
    cosa: i32,
    bd: u32,
) -> io::Result<()> {
    chroma::cctx(&mut u, &mut v, sina, cosa, bd);
    line(rt, &u)?;
    line(rt, &v)
}

// The same pairs by each angle.
fn turns(rt: &impl Print, u: [i32; 8], v: [i32; 8], bd: u32) -> io::Result<()> {
    for (sina, cosa) in ANGLES {
        run(rt, u, v, sina, cosa, bd)?;
    }
    Ok(())
}

fn main(rt: HostRuntime) -> io::Result<()> {
    run(&rt, HALVES, ZEROS, 0, 1, 8)?;
    run(&rt, ZEROS, HALVES, 1, 0, 8)?;
    turns(&rt, U8, V8, 8)?;
    turns(&rt, U10, V10, 10)?;
    turns(&rt, U12, V12, 12)
}
