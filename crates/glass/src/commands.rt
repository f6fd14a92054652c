// What each command does to the screen, and what it says. Each has passed the tests of `orders`.
ghost use Rattle.std.specs.Prelude.{true, List, ◌≡◌, ◌≤◌, ◌<◌, ℤ, length, IfOk, OnOk, OnErr, Some};
ghost use Rattle.remain.specs.Remaining.{count};
ghost use Rattle.history.specs.Calls.{lent};
ghost use Rattle.screen.specs.Planes.{argument};
ghost use Rattle.screen.specs.Screens.{Sound, Blank, possible_of};
ghost use Rattle.screen.specs.Commands.{ActFits};
ghost use Rattle.past.specs.Commands.{undone, after_of, area_of, Past, Held, Obeyable};
ghost use Rattle.glass.specs.Cuts.{UndoneSome, ObeyedSome};

use answers::Answer;
use events::log::{Ended, Left, Log, Place};
use remain::words::word;
use screen::Screen;
use screen::command::{Act, Call};
use screen::plane::natural;
use std::io;

// The event of a new screen.
fn say_screen(
    log: &Log<'_, impl Print>,
    width: usize,
    height: usize,
    depth: usize,
    pad: usize,
) -> io::Result<()> {
    if pad == 0 {
        return log.event(&format_args!("screen of {width} by {height}, depth {depth}"));
    }
    log.event(&format_args!("screen of {width} by {height}, depth {depth}, pad {pad}"))
}

// A new screen. After an error nothing has changed.
pub fn begin(
    log: &Log<'_, impl Print>,
    list: &[i32],
    room: &mut [i32],
    steps: &mut [u32],
    index: &mut [u32],
) -> io::Result<Screen>
    requires list_value { (possible_of (argument list.now 0) (argument list.now 1) (argument list.now 2) ≡ true) × (argument list.now 3 ≤ 64) × (1028 ≤ length list.now) }
    requires in_bounds { (81920 ≤ length room.old) × (length steps.old ≡ 16385) × (4096 ≤ length index.old) }
    ensures sound { IfOk result (λ s. Sound s × Blank s room.new) }
    ensures held { IfOk result
        (λ s. (levels : List ℤ) → length levels ≡ 65536 → Held (Some s) room.new steps.new levels index.new) }
    ensures err { OnErr result ((room.new ≡ room.old) × (steps.new ≡ steps.old) × (index.new ≡ index.old)) }
{
    let width = natural(list[0]);
    let height = natural(list[1]);
    let depth = natural(list[2]);
    let pad = natural(list[3]);
    say_screen(log, width, height, depth, pad)?;
    Ok(past::begin(width, height, depth, pad, room, steps, index))
}

// The event of a block, a change, a withdrawal or a fold, after which n steps remain.
fn say_done(
    log: &Log<'_, impl Print>,
    call: Call,
    list: &[i32],
    answer: Answer,
    n: usize,
) -> io::Result<()>
    requires { 18 ≤ length list.now }
{
    let row = natural(list[0]);
    let column = natural(list[1]);
    let place = Place { row, column };
    let drawn = Ended {
        answer,
        done: "done",
    };
    let stepped = Ended {
        answer,
        done: Left(n),
    };
    match call {
        Call::Block => log.event(&format_args!("block at {place}: {drawn}")),
        Call::Change => log.event(&format_args!("change at {place}: {stepped}")),
        Call::Withdraw => log.event(&format_args!("withdraw {row}: {stepped}")),
        Call::Fold => log.event(&format_args!("fold: {stepped}")),
    }
}

// The place of step i of a list of steps.
pub fn place_of(steps: &[u32], i: usize) -> Place
    requires { (length steps.now ≡ 16385) × (i < 4096) }
{
    Place {
        row: word(steps, 4 * i + 3),
        column: word(steps, 4 * i + 4),
    }
}

// The event of an undo of the newest step.
fn say_undo(log: &Log<'_, impl Print>, steps: &[u32]) -> io::Result<()>
    requires { (length steps.now ≡ 16385) × (0 < count steps.now) × (count steps.now ≤ 4096) }
{
    let n = word(steps, 0) - 1;
    let place = place_of(steps, n);
    let left = Left(n);
    log.event(&format_args!("undo at {place}: {left}"))
}

// The newest steps, taken back, newest first. An error ends it after some of them.
fn undo_some(
    log: &Log<'_, impl Print>,
    s: Screen,
    k: usize,
    plane: &mut [i32],
    steps: &mut [u32],
    levels: &mut [i32],
    index: &mut [u32],
) -> io::Result<()>
    requires { Past (area_of s plane.old) (lent plane.old steps.old levels.old index.old) × (k ≤ count steps.old) }
    ensures ok { OnOk result (lent plane.new steps.new levels.new index.new
        ≡ undone (area_of s plane.old) k (lent plane.old steps.old levels.old index.old)) }
    ensures err { OnErr result (UndoneSome (area_of s plane.old) k
        (lent plane.old steps.old levels.old index.old) (lent plane.new steps.new levels.new index.new)) }
{
    if k == 0 {
        let n = word(steps, 0);
        return log.event(&format_args!("undo of nothing, steps {n}"));
    }
    for _i in 0..k {
        say_undo(log, steps)?;
        past::undo(s, plane, steps, levels, index);
    }
    Ok(())
}

// A command that changes the screen. Where writing its event fails, it has been carried out, or of an undo some steps.
pub fn obey(
    log: &Log<'_, impl Print>,
    act: Act,
    s: Screen,
    list: &[i32],
    plane: &mut [i32],
    steps: &mut [u32],
    levels: &mut [i32],
    index: &mut [u32],
) -> io::Result<()>
    requires obeyable { Obeyable s list.now plane.old steps.old index.old }
    requires past { Past (area_of s plane.old) (lent plane.old steps.old levels.old index.old) × ActFits act s (count steps.old) list.now }
    ensures ok { OnOk result (lent plane.new steps.new levels.new index.new
        ≡ after_of (area_of s plane.old) act s.depth list.now (lent plane.old steps.old levels.old index.old)) }
    ensures err { OnErr result (ObeyedSome (area_of s plane.old) act s.depth list.now
        (lent plane.old steps.old levels.old index.old) (lent plane.new steps.new levels.new index.new)) }
{
    match act {
        Act::One(call) => {
            let r = past::obey(u32::from(call), s, list, plane, steps, levels, index);
            say_done(log, call, list, r, word(steps, 0))
        }
        Act::Undo => {
            let k = natural(list[0]);
            undo_some(log, s, k, plane, steps, levels, index)
        }
    }
}

// A copy of the screen is kept.
pub fn keep(log: &Log<'_, impl Print>, plane: &[i32], kept: &mut [i32]) -> io::Result<()>
    requires { length kept.old ≡ length plane.now }
    ensures { kept.new ≡ plane.now }
{
    whole::copy(kept, plane);
    log.event(&"keep")
}
