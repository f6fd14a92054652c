// Lines into commands, one after the other.
ghost use Rattle.std.specs.Prelude.{◌≤◌, length, IfOk, IfSome, OnErr};
ghost use Rattle.std.specs.Iterator.{at_most};
ghost use Rattle.remain.specs.Remaining.{count};
ghost use Rattle.past.specs.Commands.{Held, Roomy};
ghost use Rattle.orders.specs.Orders.{Ordered};

use crate::commands;
use crate::look::look;
use events::log::Log;
use lines::input::read_full;
use remain::words::word;
use screen::Screen;
use screen::command::Command;
use std::io;
use std::io::Read;
use words::line_end;

// A command with its numbers. After an error the screen is still there, and what holds of it still holds.
fn act(
    log: &Log<'_, impl Print>,
    command: Command,
    s: Option<Screen>,
    list: &[i32],
    room: &mut [i32],
    kept: &mut [i32],
    steps: &mut [u32],
    levels: &mut [i32],
    index: &mut [u32],
) -> io::Result<Option<Screen>>
    requires ordered { Ordered command s (count steps.old) list.now × Roomy list.now room.old kept.old steps.old levels.old index.old }
    requires held { Held s room.old steps.old levels.old index.old }
    ensures ok { IfOk result (λ t. Held t room.new steps.new levels.new index.new) }
    ensures err { OnErr result (Held s room.new steps.new levels.new index.new) }
{
    match (command, s) {
        (Command::Begin, _) => {
            let s = commands::begin(log, list, room, steps, index)?;
            Ok(Some(s))
        }
        (_, None) => unreachable!(),
        (Command::Changes(act), Some(s)) => {
            let n = s.samples();
            let cells = past::cells(s);
            commands::obey(
                log,
                act,
                s,
                list,
                &mut room[..n],
                steps,
                levels,
                &mut index[..cells],
            )?;
            Ok(Some(s))
        }
        (Command::Keep, Some(s)) => {
            let n = s.samples();
            commands::keep(log, &room[..n], &mut kept[..n])?;
            Ok(Some(s.with_copy()))
        }
        (Command::Looks(l), Some(s)) => {
            let n = s.samples();
            let cells = past::cells(s);
            look(
                log,
                l,
                s,
                list,
                &room[..n],
                &kept[..n],
                steps,
                levels,
                &index[..cells],
            )?;
            Ok(Some(s))
        }
    }
}

// The lines of a text that are left.
// Kept: `text.split(..)` gets no proof in the loop of a generic function, since its type names a closure.
#[derive(Drop)]
struct Lines<'a>(&'a [u8]);

impl<'a> Iterator for Lines<'a> {
    type Item = &'a [u8];

    ghost remaining = { λ s. at_most (length s.0.now) };

    fn next(&mut self) -> Option<&'a [u8]> {
        let text = self.0;
        if text.is_empty() {
            return None;
        }
        let end = line_end(text, 0);
        let next = text.len().min(end + 1);
        self.0 = &text[next..];
        Some(&text[..end])
    }
}

// Every line, in order.
fn each_line(
    rt: &impl Print,
    text: &[u8],
    list: &mut [i32],
    room: &mut [i32],
    kept: &mut [i32],
    steps: &mut [u32],
    levels: &mut [i32],
    index: &mut [u32],
) -> io::Result<()>
    requires { Roomy list.old room.old kept.old steps.old levels.old index.old }
{
    let mut s = None;
    for (line, bytes) in (1usize..).zip(Lines(text)) {
        let log = Log { rt, line };
        match orders::order(bytes, s, word(steps, 0), list) {
            Ok(Some(command)) => {
                s = act(&log, command, s, list, room, kept, steps, levels, index)?;
            }
            Ok(None) => {}
            Err(bad) => log.event(&format_args!("error: {bad}; nothing changed"))?,
        }
    }
    Ok(())
}

// Reads the script: how many bytes it has, where it isn't too long.
fn read(input: &mut impl Read, text: &mut [u8]) -> io::Result<Option<usize>>
    ensures { IfOk result (λ o. IfSome o (λ got. got ≤ length text.old)) }
{
    let got = read_full(input, text)?;
    if text.len() <= got {
        return Ok(None);
    }
    Ok(Some(got))
}

// Reads the script, and plays it.
pub fn play(
    input: &mut impl Read,
    rt: &impl Print,
    text: &mut [u8],
    list: &mut [i32],
    room: &mut [i32],
    kept: &mut [i32],
    steps: &mut [u32],
    levels: &mut [i32],
    index: &mut [u32],
) -> io::Result<()>
    requires { Roomy list.old room.old kept.old steps.old levels.old index.old }
{
    match read(input, text)? {
        Some(got) => each_line(rt, &text[..got], list, room, kept, steps, levels, index),
        None => rt.println("# error: script of 262144 bytes or more; nothing done"),
    }
}
