// A line of a script into a command that can be carried out (docs/GLASS.md). Every bad line is named here; what is left asks for nothing more.
//     names     the commands by their words, and how many numbers each takes
//     bad       what is wrong with a line
#![tactic(auto)]

ghost use Rattle.std.specs.Prelude.{true, ◌≡◌, ◌≤◌, ◌<◌, length, IfOk, IfSome, OnOk, OnErr};
ghost use Rattle.lossless.specs.Wanted.{Samples};
ghost use Rattle.screen.specs.Planes.{argument};
ghost use Rattle.screen.specs.Screens.{possible_of};
ghost use Rattle.screen.specs.Commands.{CallFits, ActFits, LookFits};
ghost use Rattle.orders.specs.Orders.{Ordered};

use names::Entry;
use screen::Screen;
use screen::command::{Act, Call, Command, Look};
use screen::plane::natural;

pub mod bad;
pub mod names;

pub use bad::Bad;

// A screen that can be.
fn fits_screen(list: &[i32]) -> Result<(), Bad>
    requires { 1028 ≤ length list.now }
    ensures { OnOk result ((possible_of (argument list.now 0) (argument list.now 1) (argument list.now 2) ≡ true) × (argument list.now 3 ≤ 64)) }
{
    let width = natural(list[0]);
    let height = natural(list[1]);
    let depth = natural(list[2]);
    let pad = natural(list[3]);
    if !screen::possible(width, height, depth) {
        return Err(Bad::Sides);
    }
    if 64 < pad {
        return Err(Bad::Pad);
    }
    Ok(())
}

// How many coefficients a block has; as many as any, where there is no such size.
fn coefficients(tx: usize) -> usize
    ensures { result ≤ 1024 }
{
    if 24 < tx {
        return 1024;
    }
    let size = tables::size::size_of(tx);
    tables::size::cut_of(size.w) * tables::size::cut_of(size.h)
}

// A block with no more coefficients than its size has.
fn fits_block(tx: usize, count: usize) -> Result<(), Bad> {
    let most = coefficients(tx);
    if most + 4 < count {
        return Err(Bad::Coefficients(most));
    }
    Ok(())
}

// A change whose wanted samples are in range.
fn fits_change(depth: u32, wanted: &[i32]) -> Result<(), Bad>
    requires { (depth ≤ 12) × (length wanted.now ≡ 16) }
    ensures { OnOk result (Samples depth wanted.now) }
{
    let high = ranges::high_end(depth);
    match wht::find_bad(wanted, 0, high) {
        Some(bad) => Err(Bad::Sample {
            place: bad + 3,
            high,
        }),
        None => Ok(()),
    }
}

// An undo of no more steps than remain.
fn fits_undo(n: usize, remaining: usize) -> Result<(), Bad>
    ensures { OnOk result (n ≤ remaining) }
{
    if remaining < n {
        return Err(Bad::Steps(remaining));
    }
    Ok(())
}

// A comparison with something kept.
fn fits_compare(kept: bool) -> Result<(), Bad> {
    if !kept {
        return Err(Bad::NothingKept);
    }
    Ok(())
}

// A sample of the screen.
fn fits_who(s: Screen, row: usize, column: usize) -> Result<(), Bad>
    ensures { OnOk result ((row < s.height) × (column < s.width)) }
{
    if s.height <= row {
        return Err(Bad::NoRow);
    }
    if s.width <= column {
        return Err(Bad::NoColumn);
    }
    Ok(())
}

// A call that can be made on a screen.
fn fits_call(call: Call, s: Screen, list: &[i32], count: usize) -> Result<(), Bad>
    requires { (1028 ≤ length list.now) × (s.depth ≤ 12) }
    ensures { OnOk result (CallFits call s list.now) }
{
    match call {
        Call::Block => fits_block(natural(list[2]), count),
        Call::Change => fits_change(s.depth, &list[2..18]),
        Call::Withdraw => Ok(()),
        Call::Fold => Ok(()),
    }
}

// A command that only looks, and can be carried out on a screen.
fn fits_look(look: Look, s: Screen, list: &[i32]) -> Result<(), Bad>
    requires { 1028 ≤ length list.now }
    ensures { OnOk result (LookFits look s list.now) }
{
    match look {
        Look::Compare => fits_compare(s.kept),
        Look::Who => fits_who(s, natural(list[0]), natural(list[1])),
        Look::Show | Look::Pad | Look::Free | Look::Steps => Ok(()),
    }
}

// A command that can be carried out.
fn fits(
    command: Command,
    s: Option<Screen>,
    remaining: usize,
    list: &[i32],
    count: usize,
) -> Result<(), Bad>
    requires { (1028 ≤ length list.now) × IfSome s (λ s. s.depth ≤ 12) }
    ensures { OnOk result (Ordered command s remaining list.now) }
{
    match (command, s) {
        (Command::Begin, _) => fits_screen(list),
        (_, None) => Err(Bad::NoScreen),
        (_, Some(s)) if s.stride == 0 => Err(Bad::NoScreen),
        (Command::Changes(Act::One(call)), Some(s)) => fits_call(call, s, list, count),
        (Command::Changes(Act::Undo), Some(_)) => fits_undo(natural(list[0]), remaining),
        (Command::Keep, Some(_)) => Ok(()),
        (Command::Looks(look), Some(s)) => fits_look(look, s, list),
    }
}

// Whether a command has as many numbers as it takes, and none negative that may not be.
fn takes(entry: Entry, list: &[i32], count: usize) -> Result<(), Bad>
    requires { 1028 ≤ length list.now }
{
    if !names::takes(entry.form, count) {
        return Err(Bad::Takes(entry.word, entry.form));
    }
    let n = names::heads(entry.form, count);
    match list[..n].iter().position(|z| *z < 0) {
        Some(k) => Err(Bad::Negative(k + 1)),
        None => Ok(()),
    }
}

// The numbers of a line, from a place on: how many there are.
fn read(line: &[u8], from: usize, list: &mut [i32]) -> Result<usize, Bad>
    requires { from ≤ length line.now }
    ensures { IfOk result (λ count. count ≤ length list.old) }
{
    let most = list.len();
    match words::numbers(line, from, list) {
        Ok(count) => Ok(count),
        Err(count) if count == most => Err(Bad::TooMany(most)),
        Err(count) => Err(Bad::NoNumber(count + 1)),
    }
}

// What stands for the numbers that a line doesn't give: an undo takes back one step.
fn unsaid(command: Command) -> i32 {
    match command {
        Command::Changes(Act::Undo) => 1,
        _ => 0,
    }
}

// The command of a line, with its numbers; none where it has no word or starts with '#'. After an error the list may hold any numbers.
pub fn order(
    line: &[u8],
    s: Option<Screen>,
    remaining: usize,
    list: &mut [i32],
) -> Result<Option<Command>, Bad>
    requires { (1028 ≤ length list.old) × IfSome s (λ s. s.depth ≤ 12) }
    ensures ok { IfOk result (λ o. IfSome o (λ command. Ordered command s remaining list.new)) }
    ensures err { OnErr result (length list.new ≡ length list.old) }
{
    let from = words::pass(line, 0, true);
    if line.len() <= from {
        return Ok(None);
    }
    if line[from] == b'#' {
        return Ok(None);
    }
    let to = words::pass(line, from, false);
    let Some(entry) = names::find(&line[from..to]) else {
        return Err(Bad::NoCommand);
    };
    let count = read(line, to, list)?;
    list[count..].fill(unsaid(entry.command));
    takes(entry, list, count)?;
    fits(entry.command, s, remaining, list, count)?;
    Ok(Some(entry.command))
}
