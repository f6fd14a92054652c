// One case of the stream, by the number of its call: read, run and answered.
ghost use Rattle.std.specs.Prelude.{◌≤◌, length};

use crate::histories::Call;
use crate::{histories, words};
use answers::Answer;
use std::io::Read;
use stream::slices::{LIMIT, LIMIT_BYTES, Stop};
use stream::{floats, nums, slices};

// The forms of a call differ in how they work, and not in what they are handed.
type Recon = fn(&mut [f32], &[i32], usize, usize, u32, &[i32]) -> Answer;

type Add<T> = fn(&mut [T], usize, &[i32], usize, usize, u32) -> Answer;

type Step<T> = fn(u32, &mut [T], usize, usize, usize, usize, &[i32]) -> Answer;

type Wht = fn(&[i32], &mut [i32]) -> Answer;

// What a case is read into: room for the bytes of a slice, three slices of numbers and one of floats. main makes it once and
// lends it to each case. What an earlier case left is never read: of each list a case is lent the part that was read for it.
#[derive(Drop)]
pub struct Room {
    pub bytes: [u8; LIMIT_BYTES],
    pub a: [i32; LIMIT],
    pub b: [i32; LIMIT],
    pub c: [i32; LIMIT],
    pub f: [f32; LIMIT],
}

// Reads a case after its number, runs and answers it.
// Kept: the numbers are the stream's (docs/CASES.md) and stand in this one place; an enum of the calls would need a second.
pub fn case(
    input: &mut impl Read,
    rt: &impl Print,
    room: &mut Room,
    call: u64,
) -> Result<(), Stop> {
    match call {
        1 => recon(input, rt, room, pixels::inv_txfm_recon_f32),
        2 => recon(input, rt, room, pixels::inv_txfm_recon_f32_lanes),
        3 => add(input, rt, room, pixels::inv_txfm_add),
        4 => add(input, rt, room, pixels::inv_txfm_add_lanes),
        5 => chroma_pairs(input, rt, room),
        6 => transform(input, rt, room, wht::fwht4x4),
        7 => transform(input, rt, room, wht::iwht4x4),
        8 => step(input, rt, room, lossless::lossless_step),
        9 => step(input, rt, room, lossless::lossless_undo),
        10 => recon(input, rt, room, pixels::inv_txfm_recon_f32_rows),
        11 => recon(input, rt, room, pixels::inv_txfm_recon_f32_rows_lanes),
        12 => add(input, rt, room, pixels::inv_txfm_add_rows),
        13 => add(input, rt, room, pixels::inv_txfm_add_rows_lanes),
        14 => recon(input, rt, room, pixels::inv_txfm_recon_f32_clamped),
        15 => recon(input, rt, room, pixels::inv_txfm_recon_f32_clamped_lanes),
        16 => add(input, rt, room, pixels::inv_txfm_add_clamped),
        17 => add(input, rt, room, pixels::inv_txfm_add_clamped_lanes),
        18 => add_bytes(input, rt, room, byteplanes::inv_txfm_add_bytes),
        19 => add_bytes(input, rt, room, byteplanes::inv_txfm_add_bytes_lanes),
        20 => add_bytes(input, rt, room, byteplanes::inv_txfm_add_rows_bytes),
        21 => add_bytes(input, rt, room, byteplanes::inv_txfm_add_rows_bytes_lanes),
        22 => step_bytes(input, rt, room, bytesteps::lossless_step_bytes),
        23 => step_bytes(input, rt, room, bytesteps::lossless_undo_bytes),
        24 => recon(input, rt, room, pixels::inv_txfm_recon_f32_lanes8),
        25 => recon(input, rt, room, pixels::inv_txfm_recon_f32_rows_lanes8),
        26 => add(input, rt, room, pixels::inv_txfm_add_lanes8),
        27 => add(input, rt, room, pixels::inv_txfm_add_rows_lanes8),
        28 => histories::step(input, rt, room),
        29 => histories::plain(input, rt, room, Call::Undo),
        30 => histories::numbered(input, rt, room, Call::Withdraw),
        31 => histories::numbered(input, rt, room, Call::CanWithdraw),
        32 => histories::plain(input, rt, room, Call::Rebuild),
        33 => histories::plain(input, rt, room, Call::Fold),
        34 => {
            let [n, bits] = words::read::<2>(input)?;
            let n = words::as_usize(n)?;
            let bits = words::as_u32(bits)?;
            one(input, rt, room, |t| av1::av1_inv_dct(n, bits, t))
        }
        35 => {
            let [bits] = words::read::<1>(input)?;
            let bits = words::as_u32(bits)?;
            one(input, rt, room, |t| av1_wht::av1_inv_wht4x4(bits, t))
        }
        36 => recon(input, rt, room, quick::inv_txfm_recon_f32_fast),
        37 => recon(input, rt, room, quick::inv_txfm_recon_f32_rows_fast),
        38 => add(input, rt, room, quick::inv_txfm_add_fast),
        39 => add(input, rt, room, quick::inv_txfm_add_rows_fast),
        40 => add_bytes(input, rt, room, quick_bytes::inv_txfm_add_bytes_fast),
        41 => add_bytes(input, rt, room, quick_bytes::inv_txfm_add_rows_bytes_fast),
        _ => Err(Stop::Broken),
    }
}

// A case of one slice.
fn one<F: FnOnce(&mut [i32]) -> Answer>(
    input: &mut impl Read,
    rt: &impl Print,
    room: &mut Room,
    call: F,
) -> Result<(), Stop>
    requires { F.IsAlwaysCallable call }
{
    let Room { bytes, a, .. } = room;
    let n = slices::read_slice(input, bytes, a)?;
    let r = call(&mut a[..n]);
    slices::write_answer(rt, r)?;
    slices::write_slice(rt, bytes, &a[..n])?;
    Ok(())
}

// A case of two slices, the second of which is written.
fn two<F: FnOnce(&[i32], &mut [i32]) -> Answer>(
    input: &mut impl Read,
    rt: &impl Print,
    room: &mut Room,
    call: F,
) -> Result<(), Stop>
    requires { F.IsAlwaysCallable call }
{
    let Room { bytes, a, b, .. } = room;
    let n = slices::read_slice(input, bytes, a)?;
    let m = slices::read_slice(input, bytes, b)?;
    let r = call(&a[..n], &mut b[..m]);
    slices::write_answer(rt, r)?;
    slices::write_slice(rt, bytes, &b[..m])?;
    Ok(())
}

// The same where the second is a plane of bytes: each of its numbers has to be one. They stand at the start of the room for bytes.
fn two_bytes<F: FnOnce(&[i32], &mut [u8]) -> Answer>(
    input: &mut impl Read,
    rt: &impl Print,
    room: &mut Room,
    call: F,
) -> Result<(), Stop>
    requires { F.IsAlwaysCallable call }
{
    let Room { bytes, a, b, .. } = room;
    let n = slices::read_slice(input, bytes, a)?;
    let m = slices::read_slice(input, bytes, b)?;
    let plane = &mut bytes[..m];
    nums::narrowed(&b[..m], plane)?;
    let r = call(&a[..n], plane);
    nums::widen(plane, &mut b[..m]);
    slices::write_answer(rt, r)?;
    slices::write_slice(rt, bytes, &b[..m])?;
    Ok(())
}

// The add calls.
fn add(input: &mut impl Read, rt: &impl Print, room: &mut Room, call: Add<i32>) -> Result<(), Stop>
    requires { IsAlwaysCallable call }
{
    let [depth, tx, txtp, stride] = words::read::<4>(input)?;
    let depth = words::as_u32(depth)?;
    let tx = words::as_usize(tx)?;
    let txtp = words::as_usize(txtp)?;
    let stride = words::as_usize(stride)?;
    two(
        input,
        rt,
        room,
        |coeff, plane| call(plane, stride, coeff, txtp, tx, depth),
    )
}

// The add calls on a plane of bytes.
fn add_bytes(
    input: &mut impl Read,
    rt: &impl Print,
    room: &mut Room,
    call: Add<u8>,
) -> Result<(), Stop>
    requires { IsAlwaysCallable call }
{
    let [depth, tx, txtp, stride] = words::read::<4>(input)?;
    let depth = words::as_u32(depth)?;
    let tx = words::as_usize(tx)?;
    let txtp = words::as_usize(txtp)?;
    let stride = words::as_usize(stride)?;
    two_bytes(
        input,
        rt,
        room,
        |coeff, plane| call(plane, stride, coeff, txtp, tx, depth),
    )
}

// A Walsh-Hadamard transform.
fn transform(input: &mut impl Read, rt: &impl Print, room: &mut Room, call: Wht) -> Result<(), Stop>
    requires { IsAlwaysCallable call }
{
    two(input, rt, room, |a, b| call(a, b))
}

// A lossless step, or its undo.
fn step(
    input: &mut impl Read,
    rt: &impl Print,
    room: &mut Room,
    call: Step<i32>,
) -> Result<(), Stop>
    requires { IsAlwaysCallable call }
{
    let [depth, stride, width, row, column] = words::read::<5>(input)?;
    let depth = words::as_u32(depth)?;
    let stride = words::as_usize(stride)?;
    let width = words::as_usize(width)?;
    let row = words::as_usize(row)?;
    let column = words::as_usize(column)?;
    two(input, rt, room, |levels, plane| {
        call(depth, plane, stride, width, row, column, levels)
    })
}

// The same on a plane of bytes.
fn step_bytes(
    input: &mut impl Read,
    rt: &impl Print,
    room: &mut Room,
    call: Step<u8>,
) -> Result<(), Stop>
    requires { IsAlwaysCallable call }
{
    let [depth, stride, width, row, column] = words::read::<5>(input)?;
    let depth = words::as_u32(depth)?;
    let stride = words::as_usize(stride)?;
    let width = words::as_usize(width)?;
    let row = words::as_usize(row)?;
    let column = words::as_usize(column)?;
    two_bytes(input, rt, room, |levels, plane| {
        call(depth, plane, stride, width, row, column, levels)
    })
}

// Chroma pairs: both slices are written.
fn chroma_pairs(input: &mut impl Read, rt: &impl Print, room: &mut Room) -> Result<(), Stop> {
    let [depth, sine, cosine] = words::read::<3>(input)?;
    let depth = words::as_u32(depth)?;
    let sine = words::as_i32(sine)?;
    let cosine = words::as_i32(cosine)?;
    let Room {
        bytes,
        a: u,
        b: v,
        ..
    } = room;
    let n = slices::read_slice(input, bytes, u)?;
    let m = slices::read_slice(input, bytes, v)?;
    let r = chroma::cctx(&mut u[..n], &mut v[..m], sine, cosine, depth);
    slices::write_answer(rt, r)?;
    slices::write_slice(rt, bytes, &u[..n])?;
    slices::write_slice(rt, bytes, &v[..m])?;
    Ok(())
}

// Runs a float call on the floats of these bits, for which there is room.
fn on_floats(
    call: Recon,
    coeff: &[i32],
    pred: &[i32],
    txtp: usize,
    tx: usize,
    depth: u32,
    bits: &mut [i32],
    room: &mut [f32],
) -> Answer
    requires callable { IsAlwaysCallable call }
    requires long { length bits.old ≤ length room.old }
{
    let out = &mut room[..bits.len()];
    floats::load(bits, out);
    let r = call(out, coeff, txtp, tx, depth, pred);
    floats::store(out, bits);
    r
}

// The float calls, whose third slice stands in the stream by its bits.
fn recon(input: &mut impl Read, rt: &impl Print, room: &mut Room, call: Recon) -> Result<(), Stop>
    requires { IsAlwaysCallable call }
{
    let [depth, tx, txtp] = words::read::<3>(input)?;
    let depth = words::as_u32(depth)?;
    let tx = words::as_usize(tx)?;
    let txtp = words::as_usize(txtp)?;
    let Room { bytes, a, b, c, f } = room;
    let coeff = slices::read_slice(input, bytes, a)?;
    let pred = slices::read_slice(input, bytes, b)?;
    let n = slices::read_slice(input, bytes, c)?;
    let r = on_floats(
        call,
        &a[..coeff],
        &b[..pred],
        txtp,
        tx,
        depth,
        &mut c[..n],
        f,
    );
    slices::write_answer(rt, r)?;
    slices::write_slice(rt, bytes, &c[..n])?;
    Ok(())
}
