// The calls under their C names, as include/panel.h declares them: each is the call that it wraps, with its promise. Crate
// `panel_c` exports them.
#![tactic(auto)]

pub mod bytes; // The calls on planes of bytes.

ghost use Rattle.std.specs.Prelude.{◌≡◌, length};
ghost use Rattle.answers.specs.declared.Answer.{Answer};
ghost use Rattle.pixels.specs.Calls.{add_of, float_of, Exact, strict, strict_rows, clamped};
ghost use Rattle.chroma.specs.Chroma.{cctx_of};
ghost use Rattle.wht.specs.Calls.{fwht_of, iwht_of};
ghost use Rattle.lossless.specs.Step.{attempt, step_of, undo_of};
ghost use Rattle.keeping.specs.Range.{area};
ghost use Rattle.history.specs.Calls as Remaining;
ghost use Rattle.history.specs.Calls.{lent, withdraw_verdict, withdraw_of, rebuild_of};
ghost use Rattle.folding.specs.Fold.{three_of, fold_of};
ghost use Rattle.av1.specs.Calls.{dct_of};
ghost use Rattle.av1_wht.specs.Wht.{wht_of};

use answers::Answer;

// Prediction plus residual as f32, row after row.
pub fn panel_inv_txfm_recon_f32(
    out: &mut [f32],
    coeff: &[i32],
    txtp: usize,
    tx: usize,
    bd: u32,
    pred: &[i32],
) -> Answer
    ensures out_after { (result, out.new) ≡ float_of strict out.old coeff.now txtp tx bd pred.now }
    ensures exact { result.number ≡ 0 → Exact strict out.new coeff.now txtp tx bd pred.now }
{
    pixels::inv_txfm_recon_f32(out, coeff, txtp, tx, bd, pred)
}

// The same, four lanes at a time.
pub fn panel_inv_txfm_recon_f32_lanes(
    out: &mut [f32],
    coeff: &[i32],
    txtp: usize,
    tx: usize,
    bd: u32,
    pred: &[i32],
) -> Answer
    ensures out_after { (result, out.new) ≡ float_of strict out.old coeff.now txtp tx bd pred.now }
    ensures exact { result.number ≡ 0 → Exact strict out.new coeff.now txtp tx bd pred.now }
{
    pixels::inv_txfm_recon_f32_lanes(out, coeff, txtp, tx, bd, pred)
}

// And eight lanes at a time.
pub fn panel_inv_txfm_recon_f32_lanes8(
    out: &mut [f32],
    coeff: &[i32],
    txtp: usize,
    tx: usize,
    bd: u32,
    pred: &[i32],
) -> Answer
    ensures out_after { (result, out.new) ≡ float_of strict out.old coeff.now txtp tx bd pred.now }
    ensures exact { result.number ≡ 0 → Exact strict out.new coeff.now txtp tx bd pred.now }
{
    pixels::inv_txfm_recon_f32_lanes8(out, coeff, txtp, tx, bd, pred)
}

// And the fast form.
pub fn panel_inv_txfm_recon_f32_fast(
    out: &mut [f32],
    coeff: &[i32],
    txtp: usize,
    tx: usize,
    bd: u32,
    pred: &[i32],
) -> Answer
    ensures out_after { (result, out.new) ≡ float_of strict out.old coeff.now txtp tx bd pred.now }
    ensures exact { result.number ≡ 0 → Exact strict out.new coeff.now txtp tx bd pred.now }
{
    quick::inv_txfm_recon_f32_fast(out, coeff, txtp, tx, bd, pred)
}

// The same, with coefficients in row order.
pub fn panel_inv_txfm_recon_f32_rows(
    out: &mut [f32],
    coeff: &[i32],
    txtp: usize,
    tx: usize,
    bd: u32,
    pred: &[i32],
) -> Answer
    ensures out_after { (result, out.new) ≡ float_of strict_rows out.old coeff.now txtp tx bd pred.now }
    ensures exact { result.number ≡ 0 → Exact strict_rows out.new coeff.now txtp tx bd pred.now }
{
    pixels::inv_txfm_recon_f32_rows(out, coeff, txtp, tx, bd, pred)
}

// And four lanes at a time.
pub fn panel_inv_txfm_recon_f32_rows_lanes(
    out: &mut [f32],
    coeff: &[i32],
    txtp: usize,
    tx: usize,
    bd: u32,
    pred: &[i32],
) -> Answer
    ensures out_after { (result, out.new) ≡ float_of strict_rows out.old coeff.now txtp tx bd pred.now }
    ensures exact { result.number ≡ 0 → Exact strict_rows out.new coeff.now txtp tx bd pred.now }
{
    pixels::inv_txfm_recon_f32_rows_lanes(out, coeff, txtp, tx, bd, pred)
}

// And eight lanes at a time.
pub fn panel_inv_txfm_recon_f32_rows_lanes8(
    out: &mut [f32],
    coeff: &[i32],
    txtp: usize,
    tx: usize,
    bd: u32,
    pred: &[i32],
) -> Answer
    ensures out_after { (result, out.new) ≡ float_of strict_rows out.old coeff.now txtp tx bd pred.now }
    ensures exact { result.number ≡ 0 → Exact strict_rows out.new coeff.now txtp tx bd pred.now }
{
    pixels::inv_txfm_recon_f32_rows_lanes8(out, coeff, txtp, tx, bd, pred)
}

// And the fast form.
pub fn panel_inv_txfm_recon_f32_rows_fast(
    out: &mut [f32],
    coeff: &[i32],
    txtp: usize,
    tx: usize,
    bd: u32,
    pred: &[i32],
) -> Answer
    ensures out_after { (result, out.new) ≡ float_of strict_rows out.old coeff.now txtp tx bd pred.now }
    ensures exact { result.number ≡ 0 → Exact strict_rows out.new coeff.now txtp tx bd pred.now }
{
    quick::inv_txfm_recon_f32_rows_fast(out, coeff, txtp, tx, bd, pred)
}

// The same, with coefficients clamped in place of refused: as the source of the port has it.
pub fn panel_inv_txfm_recon_f32_clamped(
    out: &mut [f32],
    coeff: &[i32],
    txtp: usize,
    tx: usize,
    bd: u32,
    pred: &[i32],
) -> Answer
    ensures out_after { (result, out.new) ≡ float_of clamped out.old coeff.now txtp tx bd pred.now }
    ensures exact { result.number ≡ 0 → Exact clamped out.new coeff.now txtp tx bd pred.now }
{
    pixels::inv_txfm_recon_f32_clamped(out, coeff, txtp, tx, bd, pred)
}

// And four lanes at a time.
pub fn panel_inv_txfm_recon_f32_clamped_lanes(
    out: &mut [f32],
    coeff: &[i32],
    txtp: usize,
    tx: usize,
    bd: u32,
    pred: &[i32],
) -> Answer
    ensures out_after { (result, out.new) ≡ float_of clamped out.old coeff.now txtp tx bd pred.now }
    ensures exact { result.number ≡ 0 → Exact clamped out.new coeff.now txtp tx bd pred.now }
{
    pixels::inv_txfm_recon_f32_clamped_lanes(out, coeff, txtp, tx, bd, pred)
}

// The residual added into a picture at its stride.
pub fn panel_inv_txfm_add(
    dst: &mut [i32],
    stride: usize,
    coeff: &[i32],
    txtp: usize,
    tx: usize,
    bd: u32,
) -> Answer
    ensures { (result, dst.new) ≡ add_of strict dst.old stride coeff.now txtp tx bd }
{
    pixels::inv_txfm_add(dst, stride, coeff, txtp, tx, bd)
}

// The same, four lanes at a time.
pub fn panel_inv_txfm_add_lanes(
    dst: &mut [i32],
    stride: usize,
    coeff: &[i32],
    txtp: usize,
    tx: usize,
    bd: u32,
) -> Answer
    ensures { (result, dst.new) ≡ add_of strict dst.old stride coeff.now txtp tx bd }
{
    pixels::inv_txfm_add_lanes(dst, stride, coeff, txtp, tx, bd)
}

// And eight lanes at a time.
pub fn panel_inv_txfm_add_lanes8(
    dst: &mut [i32],
    stride: usize,
    coeff: &[i32],
    txtp: usize,
    tx: usize,
    bd: u32,
) -> Answer
    ensures { (result, dst.new) ≡ add_of strict dst.old stride coeff.now txtp tx bd }
{
    pixels::inv_txfm_add_lanes8(dst, stride, coeff, txtp, tx, bd)
}

// And the fast form.
pub fn panel_inv_txfm_add_fast(
    dst: &mut [i32],
    stride: usize,
    coeff: &[i32],
    txtp: usize,
    tx: usize,
    bd: u32,
) -> Answer
    ensures { (result, dst.new) ≡ add_of strict dst.old stride coeff.now txtp tx bd }
{
    quick::inv_txfm_add_fast(dst, stride, coeff, txtp, tx, bd)
}

// The same, with coefficients in row order.
pub fn panel_inv_txfm_add_rows(
    dst: &mut [i32],
    stride: usize,
    coeff: &[i32],
    txtp: usize,
    tx: usize,
    bd: u32,
) -> Answer
    ensures { (result, dst.new) ≡ add_of strict_rows dst.old stride coeff.now txtp tx bd }
{
    pixels::inv_txfm_add_rows(dst, stride, coeff, txtp, tx, bd)
}

// And four lanes at a time.
pub fn panel_inv_txfm_add_rows_lanes(
    dst: &mut [i32],
    stride: usize,
    coeff: &[i32],
    txtp: usize,
    tx: usize,
    bd: u32,
) -> Answer
    ensures { (result, dst.new) ≡ add_of strict_rows dst.old stride coeff.now txtp tx bd }
{
    pixels::inv_txfm_add_rows_lanes(dst, stride, coeff, txtp, tx, bd)
}

// And eight lanes at a time.
pub fn panel_inv_txfm_add_rows_lanes8(
    dst: &mut [i32],
    stride: usize,
    coeff: &[i32],
    txtp: usize,
    tx: usize,
    bd: u32,
) -> Answer
    ensures { (result, dst.new) ≡ add_of strict_rows dst.old stride coeff.now txtp tx bd }
{
    pixels::inv_txfm_add_rows_lanes8(dst, stride, coeff, txtp, tx, bd)
}

// And the fast form.
pub fn panel_inv_txfm_add_rows_fast(
    dst: &mut [i32],
    stride: usize,
    coeff: &[i32],
    txtp: usize,
    tx: usize,
    bd: u32,
) -> Answer
    ensures { (result, dst.new) ≡ add_of strict_rows dst.old stride coeff.now txtp tx bd }
{
    quick::inv_txfm_add_rows_fast(dst, stride, coeff, txtp, tx, bd)
}

// The same, with coefficients clamped in place of refused: as the source of the port has it.
pub fn panel_inv_txfm_add_clamped(
    dst: &mut [i32],
    stride: usize,
    coeff: &[i32],
    txtp: usize,
    tx: usize,
    bd: u32,
) -> Answer
    ensures { (result, dst.new) ≡ add_of clamped dst.old stride coeff.now txtp tx bd }
{
    pixels::inv_txfm_add_clamped(dst, stride, coeff, txtp, tx, bd)
}

// And four lanes at a time.
pub fn panel_inv_txfm_add_clamped_lanes(
    dst: &mut [i32],
    stride: usize,
    coeff: &[i32],
    txtp: usize,
    tx: usize,
    bd: u32,
) -> Answer
    ensures { (result, dst.new) ≡ add_of clamped dst.old stride coeff.now txtp tx bd }
{
    pixels::inv_txfm_add_clamped_lanes(dst, stride, coeff, txtp, tx, bd)
}

// Chroma pairs, turned in their places.
pub fn panel_cctx(u: &mut [i32], v: &mut [i32], sina: i32, cosa: i32, bd: u32) -> Answer
    ensures { (result, (u.new, v.new)) ≡ cctx_of u.old v.old sina cosa bd }
{
    chroma::cctx(u, v, sina, cosa, bd)
}

// The Walsh-Hadamard transform of sixteen numbers.
pub fn panel_fwht4x4(resid: &[i32], level: &mut [i32]) -> Answer
    ensures { (result, level.new) ≡ fwht_of resid.now level.old }
{
    wht::fwht4x4(resid, level)
}

// Its inverse.
pub fn panel_iwht4x4(level: &[i32], resid: &mut [i32]) -> Answer
    ensures { (result, resid.new) ≡ iwht_of level.now resid.old }
{
    wht::iwht4x4(level, resid)
}

// A lossless step on a 4x4 block of a plane whose lines show width samples.
pub fn panel_lossless_step(
    depth: u32,
    plane: &mut [i32],
    stride: usize,
    width: usize,
    row: usize,
    column: usize,
    level: &[i32],
) -> Answer
    ensures { (result, plane.new) ≡ step_of plane.old (attempt depth stride width row column level.now) }
{
    lossless::lossless_step(depth, plane, stride, width, row, column, level)
}

// Its undo, with the same arguments.
pub fn panel_lossless_undo(
    depth: u32,
    plane: &mut [i32],
    stride: usize,
    width: usize,
    row: usize,
    column: usize,
    level: &[i32],
) -> Answer
    ensures { (result, plane.new) ≡ undo_of plane.old (attempt depth stride width row column level.now) }
{
    lossless::lossless_undo(depth, plane, stride, width, row, column, level)
}

// A lossless step, remembered in lent memory.
pub fn panel_history_step(
    depth: u32,
    plane: &mut [i32],
    stride: usize,
    width: usize,
    rows: usize,
    row: usize,
    column: usize,
    level: &[i32],
    steps: &mut [u32],
    levels: &mut [i32],
    index: &mut [u32],
) -> Answer
    ensures { (result, lent plane.new steps.new levels.new index.new)
        ≡ Remaining.step_of (area (length plane.old) stride width rows) depth row column level.now (lent plane.old steps.old levels.old index.old) }
{
    history::history_step(
        depth, plane, stride, width, rows, row, column, level, steps, levels, index,
    )
}

// The newest remaining step, undone.
pub fn panel_history_undo(
    plane: &mut [i32],
    stride: usize,
    width: usize,
    rows: usize,
    steps: &mut [u32],
    levels: &mut [i32],
    index: &mut [u32],
) -> Answer
    ensures { (result, lent plane.new steps.new levels.new index.new)
        ≡ Remaining.undo_of (area (length plane.old) stride width rows) (lent plane.old steps.old levels.old index.old) }
{
    history::history_undo(plane, stride, width, rows, steps, levels, index)
}

// The remaining step with a number, undone.
pub fn panel_history_withdraw(
    plane: &mut [i32],
    stride: usize,
    width: usize,
    rows: usize,
    number: u32,
    steps: &mut [u32],
    levels: &mut [i32],
    index: &mut [u32],
) -> Answer
    ensures { (result, lent plane.new steps.new levels.new index.new)
        ≡ withdraw_of (area (length plane.old) stride width rows) number (lent plane.old steps.old levels.old index.old) }
{
    history::history_withdraw(plane, stride, width, rows, number, steps, levels, index)
}

// What a withdrawal would answer.
pub fn panel_history_can_withdraw(
    plane: &[i32],
    stride: usize,
    width: usize,
    rows: usize,
    number: u32,
    steps: &[u32],
    levels: &[i32],
    index: &[u32],
) -> Answer
    ensures { result ≡ withdraw_verdict (area (length plane.now) stride width rows) number (lent plane.now steps.now levels.now index.now) }
{
    history::history_can_withdraw(plane, stride, width, rows, number, steps, levels, index)
}

// The whole index, from the list.
pub fn panel_history_rebuild(
    plane: &[i32],
    stride: usize,
    width: usize,
    rows: usize,
    steps: &[u32],
    levels: &[i32],
    index: &mut [u32],
) -> Answer
    ensures { (result, index.new) ≡ rebuild_of (area (length plane.now) stride width rows) steps.now levels.now index.old }
{
    history::history_rebuild(plane, stride, width, rows, steps, levels, index)
}

// Pairs of remaining steps on one block folded together, until none is left.
pub fn panel_history_fold(
    plane: &[i32],
    stride: usize,
    width: usize,
    rows: usize,
    steps: &mut [u32],
    levels: &mut [i32],
    index: &mut [u32],
) -> Answer
    ensures { (result, three_of steps.new levels.new index.new)
        ≡ fold_of (area (length plane.now) stride width rows) steps.old levels.old index.old }
{
    folding_code::history_fold(plane, stride, width, rows, steps, levels, index)
}

// The inverse DCT of AV1, in its place.
pub fn panel_av1_inv_dct(n: usize, bits: u32, t: &mut [i32]) -> Answer
    ensures { (result, t.new) ≡ dct_of n bits t.old }
{
    av1::av1_inv_dct(n, bits, t)
}

// The inverse 4x4 WHT of AV1, in its place.
pub fn panel_av1_inv_wht4x4(bits: u32, t: &mut [i32]) -> Answer
    ensures { (result, t.new) ≡ wht_of bits t.old }
{
    av1_wht::av1_inv_wht4x4(bits, t)
}
