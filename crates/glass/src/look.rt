// The commands that only look at the screen.
ghost use Rattle.std.specs.Prelude.{◌≡◌, ◌+◌, ◌*◌, ◌≤◌, ◌<◌, length};
ghost use Rattle.remain.specs.Remaining.{count};
ghost use Rattle.remain.specs.Touch.{across};
ghost use Rattle.screen.specs.Planes.{Differ};
ghost use Rattle.screen.specs.Commands.{LookFits};
ghost use Rattle.past.specs.Commands.{Seen};

use crate::commands::place_of;
use events::log::{Ended, Log, Place};
use events::picture;
use remain::words::word;
use screen::command::Look;
use screen::plane::natural;
use screen::{Screen, plane};
use std::io;

// The row and the column of sample d.
fn place_in(s: Screen, d: usize) -> Place
    requires { 0 < s.stride }
{
    Place {
        row: d / s.stride,
        column: d % s.stride,
    }
}

// Says that two planes are the same.
fn say_equal(log: &Log<'_, impl Print>, a: &[i32], b: &[i32]) -> io::Result<()>
    requires { a.now ≡ b.now }
{
    log.event(&"compare: equal")
}

// Says where two planes first differ.
fn say_differ(
    log: &Log<'_, impl Print>,
    s: Screen,
    a: &[i32],
    b: &[i32],
    d: usize,
) -> io::Result<()>
    requires { (0 < s.stride) × (d < length a.now) × Differ d a.now b.now }
{
    let place = place_in(s, d);
    log.event(&format_args!("compare: first differs at {place}"))
}

// The screen, its pad too, against the kept copy.
fn compare(log: &Log<'_, impl Print>, s: Screen, plane: &[i32], kept: &[i32]) -> io::Result<()>
    requires { (0 < s.stride) × (length plane.now ≡ length kept.now) }
{
    match plane::first_difference(plane, kept) {
        Some(first) => say_differ(log, s, plane, kept, first),
        None => say_equal(log, plane, kept),
    }
}

// Whether the pad is as it was at the start.
fn pad(log: &Log<'_, impl Print>, s: Screen, plane: &[i32]) -> io::Result<()>
    requires { 0 < s.stride }
{
    match s.first_touched(plane) {
        Some(first) => {
            let place = place_in(s, first);
            log.event(&format_args!("pad: first touched at {place}"))
        }
        None => log.event(&"pad: untouched"),
    }
}

// Whether the step of a number could be withdrawn.
fn free(
    log: &Log<'_, impl Print>,
    s: Screen,
    number: u32,
    plane: &[i32],
    steps: &[u32],
    levels: &[i32],
    index: &[u32],
) -> io::Result<()> {
    let answer = history::history_can_withdraw(
        plane, s.stride, s.width, s.height, number, steps, levels, index,
    );
    let ended = Ended {
        answer,
        done: "yes",
    };
    log.event(&format_args!("free {number}: {ended}"))
}

// The last step that touched the cell of a sample.
fn who(
    log: &Log<'_, impl Print>,
    s: Screen,
    row: usize,
    column: usize,
    index: &[u32],
) -> io::Result<()>
    requires { (row < s.height) × (column < s.width) × (length index.now ≡ across s.height * across s.width) }
{
    let k = word(index, row / 4 * s.width.div_ceil(4) + column / 4);
    let place = Place { row, column };
    if k == 0 {
        return log.event(&format_args!("who at {place}: none"));
    }
    log.event(&format_args!("who at {place}: step {k}"))
}

// The steps that remain, oldest first.
fn list_steps(log: &Log<'_, impl Print>, steps: &[u32]) -> io::Result<()>
    requires { (length steps.now ≡ 16385) × (count steps.now ≤ 4096) }
{
    let n = word(steps, 0);
    log.event(&format_args!("steps {n}"))?;
    for i in 0..n {
        let number = word(steps, 4 * i + 1);
        let place = place_of(steps, i);
        log.event(&format_args!("step {number} at {place}"))?;
    }
    Ok(())
}

// The screen as a picture.
fn show(log: &Log<'_, impl Print>, s: Screen, plane: &[i32]) -> io::Result<()>
    requires { (length plane.now ≡ s.stride * s.height) × (s.width ≤ s.stride) × (s.depth ≤ 12) }
{
    log.event(&"show")?;
    picture::show(log.rt, plane, s)
}

// A command that only looks.
pub fn look(
    log: &Log<'_, impl Print>,
    look: Look,
    s: Screen,
    list: &[i32],
    plane: &[i32],
    kept: &[i32],
    steps: &[u32],
    levels: &[i32],
    index: &[u32],
) -> io::Result<()>
    requires { Seen s list.now plane.now kept.now steps.now index.now × LookFits look s list.now }
{
    match look {
        Look::Show => show(log, s, plane),
        Look::Compare => compare(log, s, plane, kept),
        Look::Pad => pad(log, s, plane),
        Look::Free => {
            let number = natural(list[0]) as u32;
            free(log, s, number, plane, steps, levels, index)
        }
        Look::Who => who(log, s, natural(list[0]), natural(list[1]), index),
        Look::Steps => list_steps(log, steps),
    }
}
