// Reads a case stream (docs/CASES.md) on standard input to its end, and writes the answers on standard output.
// The files stdin and stdout hold recorded cases and their answers.
//     cases     each call by its number: what a case of it has, and how it is run and answered
//     histories the same for the calls on a history, whose memory is trimmed in a stream
//     words     the words of a case as what a call is handed
#![tactic(auto)]

mod cases;
mod histories;
mod words;

use cases::Room;
use std::io;
use std::io::Read;
use stream::slices;
use stream::slices::{LIMIT, LIMIT_BYTES, Stop};

// Every case, in order. A proved loop has to end, and nothing says that the input does. So the loop counts its turns, up to
// a number that no run uses up.
fn replay(input: &mut impl Read, rt: &impl Print, room: &mut Room) -> Result<(), Stop> {
    for _ in 0..u64::MAX {
        let Some(call) = slices::next_word(input)? else {
            return Ok(());
        };
        cases::case(input, rt, room, call)?;
    }
    Ok(())
}

// A stream that breaks the rules is answered with this word, and nothing more.
fn main(rt: HostRuntime) -> io::Result<()> {
    let mut room = Room {
        bytes: [0; LIMIT_BYTES],
        a: [0; LIMIT],
        b: [0; LIMIT],
        c: [0; LIMIT],
        f: [0.0; LIMIT],
    };
    match replay(&mut rt.stdin(), &rt, &mut room) {
        Ok(()) => Ok(()),
        Err(Stop::Broken) => slices::write_word(&rt, u64::MAX),
        Err(Stop::Io(e)) => Err(e),
    }
}
