// A case of a call on a history: read, run and answered.
ghost use Rattle.std.specs.Prelude.{◌*◌, ◌≤◌, length};

use crate::cases::Room;
use crate::words;
use answers::Answer;
use std::io::Read;
use stream::slices::{Stop, TRIMMED, TRIMMED_BYTES};
use stream::{nums, slices};

// A call on a history, with what it is handed besides the plane and the memory.
#[derive(Clone, Copy)]
pub enum Call {
    Step(Place),
    Undo,
    Withdraw(u32),
    CanWithdraw(u32),
    Rebuild,
    Fold,
}

// Where a step goes, and at what depth.
#[derive(Clone, Copy)]
pub struct Place {
    depth: u32,
    row: usize,
    column: usize,
}

// The plane's lines.
#[derive(Clone, Copy)]
struct Lines {
    stride: usize,
    width: usize,
    rows: usize,
}

fn as_lines(stride: u64, width: u64, rows: u64) -> Result<Lines, Stop> {
    Ok(Lines {
        stride: words::as_usize(stride)?,
        width: words::as_usize(width)?,
        rows: words::as_usize(rows)?,
    })
}

// Runs a call.
fn run(
    call: Call,
    lines: Lines,
    level: &[i32],
    plane: &mut [i32],
    steps: &mut [u32],
    levels: &mut [i32],
    index: &mut [u32],
) -> Answer {
    let Lines {
        stride,
        width,
        rows,
    } = lines;
    match call {
        Call::Step(Place { depth, row, column }) => history::history_step(
            depth, plane, stride, width, rows, row, column, level, steps, levels, index,
        ),
        Call::Undo => history::history_undo(plane, stride, width, rows, steps, levels, index),
        Call::Withdraw(number) => history::history_withdraw(
            plane, stride, width, rows, number, steps, levels, index,
        ),
        Call::CanWithdraw(number) => history::history_can_withdraw(
            plane, stride, width, rows, number, steps, levels, index,
        ),
        Call::Rebuild => history::history_rebuild(plane, stride, width, rows, steps, levels, index),
        Call::Fold => folding_code::history_fold(plane, stride, width, rows, steps, levels, index),
    }
}

// Runs and answers a case. Steps and index stand in the stream as signed numbers, by their bits.
fn answer(
    rt: &impl Print,
    call: Call,
    lines: Lines,
    bytes: &mut [u8],
    level: &[i32],
    plane: &mut [i32],
    steps: &mut [i32],
    levels: &mut [i32],
    index: &mut [i32],
) -> Result<(), Stop>
    requires plane_bytes { 4 * length plane.old ≤ length bytes.old }
    requires steps_bytes { 4 * length steps.old ≤ length bytes.old }
    requires levels_bytes { 4 * length levels.old ≤ length bytes.old }
    requires index_bytes { 4 * length index.old ≤ length bytes.old }
    requires steps_short { length steps.old ≤ 70000 }
    requires index_short { length index.old ≤ 70000 }
{
    let mut s = [0u32; TRIMMED];
    let mut x = [0u32; TRIMMED];
    let own_steps = &mut s[..steps.len()];
    let own_index = &mut x[..index.len()];
    nums::unsigned(steps, own_steps);
    nums::unsigned(index, own_index);
    let r = run(call, lines, level, plane, own_steps, levels, own_index);
    nums::resigned(own_steps, steps);
    nums::resigned(own_index, index);
    slices::write_answer(rt, r)?;
    if matches!(call, Call::Step(_) | Call::Undo | Call::Withdraw(_)) {
        slices::write_slice(rt, bytes, plane)?;
    }
    if !matches!(call, Call::CanWithdraw(_) | Call::Rebuild) {
        slices::write_trimmed(rt, bytes, steps)?;
        slices::write_trimmed(rt, bytes, levels)?;
    }
    if !matches!(call, Call::CanWithdraw(_)) {
        slices::write_trimmed(rt, bytes, index)?;
    }
    Ok(())
}

// Reads a case after its words, runs and answers it.
fn case(
    input: &mut impl Read,
    rt: &impl Print,
    room: &mut Room,
    call: Call,
    lines: Lines,
) -> Result<(), Stop> {
    let Room { a, b, .. } = room;
    let mut bytes = [0u8; TRIMMED_BYTES];
    let mut s = [0i32; TRIMMED];
    let mut l = [0i32; TRIMMED];
    let mut x = [0i32; TRIMMED];
    let level = match call {
        Call::Step(_) => slices::read_slice(input, &mut bytes, a)?,
        _ => 0,
    };
    let plane = slices::read_slice(input, &mut bytes, b)?;
    let steps = slices::read_trimmed(input, &mut bytes, &mut s)?;
    let levels = slices::read_trimmed(input, &mut bytes, &mut l)?;
    let index = slices::read_trimmed(input, &mut bytes, &mut x)?;
    answer(
        rt,
        call,
        lines,
        &mut bytes,
        &a[..level],
        &mut b[..plane],
        &mut s[..steps],
        &mut l[..levels],
        &mut x[..index],
    )
}

// A case of a step, which has its depth before the lines and its place behind them.
pub fn step(input: &mut impl Read, rt: &impl Print, room: &mut Room) -> Result<(), Stop> {
    let [depth, stride, width, rows, row, column] = words::read::<6>(input)?;
    let depth = words::as_u32(depth)?;
    let lines = as_lines(stride, width, rows)?;
    let row = words::as_usize(row)?;
    let column = words::as_usize(column)?;
    case(
        input,
        rt,
        room,
        Call::Step(Place { depth, row, column }),
        lines,
    )
}

// A case of a call that is handed the lines alone.
pub fn plain(
    input: &mut impl Read,
    rt: &impl Print,
    room: &mut Room,
    call: Call,
) -> Result<(), Stop> {
    let [stride, width, rows] = words::read::<3>(input)?;
    let lines = as_lines(stride, width, rows)?;
    case(input, rt, room, call, lines)
}

// A case of a call that is handed the number of a step besides.
pub fn numbered(
    input: &mut impl Read,
    rt: &impl Print,
    room: &mut Room,
    call: fn(u32) -> Call,
) -> Result<(), Stop>
    requires { IsAlwaysCallable call }
{
    let [stride, width, rows, number] = words::read::<4>(input)?;
    let lines = as_lines(stride, width, rows)?;
    let number = words::as_u32(number)?;
    case(input, rt, room, call(number), lines)
}
