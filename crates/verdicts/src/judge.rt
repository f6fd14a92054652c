// Which refusal applies: over shared slices, nothing written.
ghost use Rattle.std.specs.Prelude.{◌≡◌, ℕ, ◌+◌, ◌*◌, ◌≤◌, ◌<◌, length};
ghost use Rattle.answers.specs.Answers.{done};
ghost use Rattle.answers.specs.Reasons.{verdict_of};
ghost use Rattle.ranges.specs.Cells.{Finds};
ghost use Rattle.tables.specs.declared.size.Size.{Size};
ghost use Rattle.tables.specs.Kinds.{has_kind};
ghost use Rattle.tables.specs.Sizes.{cut};
ghost use Rattle.verdicts.specs.Verdicts.{Sides, kinds, coeff_ok, coefficients, numbers, on_plane, on_buffers, add_verdict, float_verdict};

use answers::{Reason, Slice};
use tables::size::Size;

// Whether a length has a kind.
fn has_kind(n: usize, code: usize) -> bool
    ensures { result ≡ has_kind n code }
{
    match n {
        4 => code <= 3,
        8 => code <= 5,
        16 => code <= 5,
        32 => code <= 1,
        64 => code <= 0,
        _ => false,
    }
}

// Refusals 1 to 4.
pub fn judge_kinds(txtp: usize, tx: usize, bd: u32) -> Result<(), Reason>
    ensures { verdict_of result ≡ kinds tx txtp bd done }
{
    if bd < 8 || 12 < bd {
        return Err(Reason::Depth);
    }
    if 24 < tx {
        return Err(Reason::Size);
    }
    if 255 < txtp {
        return Err(Reason::Type);
    }
    let s = tables::size::size_of(tx);
    if !has_kind(s.w, tables::kind::hor(txtp)) {
        return Err(Reason::HorizontalKind);
    }
    if !has_kind(s.h, tables::kind::ver(txtp)) {
        return Err(Reason::VerticalKind);
    }
    Ok(())
}

// The number of the first of sw * sh coefficients out of range.
fn first_coefficient(
    coeff: &[i32],
    sw: usize,
    sh: usize,
    scale: bool,
    bd: u32,
    strict: bool,
) -> Option<usize>
    requires { (bd ≤ 12) × (sw ≤ 32) × (sh ≤ 32) × (sw * sh ≤ length coeff.now) }
    ensures { Finds (coeff_ok strict scale bd coeff.now) (sw * sh) result }
{
    if strict {
        let lo = ranges::low_end(bd + 7);
        let hi = ranges::high_end(bd + 7);
        crate::samples::first_sample(coeff, sh, sh, sw, lo, hi)
    } else if scale {
        crate::samples::first_sample(coeff, sh, sh, sw, -11864550, 11864549)
    } else {
        None
    }
}

// Refusal 7, for a block of a size.
pub fn judge_coefficients(coeff: &[i32], s: Size, bd: u32, strict: bool) -> Result<(), Reason>
    requires { (bd ≤ 12) × Sides s.w s.h × (cut s.w * cut s.h ≤ length coeff.now) }
    ensures { verdict_of result ≡ coefficients strict s.w s.h bd coeff.now done }
{
    let sw = tables::size::cut_of(s.w);
    let sh = tables::size::cut_of(s.h);
    match first_coefficient(coeff, sw, sh, tables::size::is_scaled(s.w, s.h), bd, strict) {
        Some(place) => Err(Reason::Level(Slice::Read, place)),
        None => Ok(()),
    }
}

// Refusals 7 and 8, for a block of a size at the front of p, its rows stride apart.
fn judge_numbers(
    coeff: &[i32],
    p: &[i32],
    stride: usize,
    s: Size,
    bd: u32,
    strict: bool,
) -> Result<(), Reason>
    requires { (bd ≤ 12) × Sides s.w s.h × (cut s.w * cut s.h ≤ length coeff.now) × ((r : ℕ) → r < s.h → r * stride + s.w ≤ length p.now) }
    ensures { verdict_of result ≡ numbers strict s.w s.h bd coeff.now p.now stride }
{
    judge_coefficients(coeff, s, bd, strict)?;
    match crate::samples::first_sample(p, stride, s.w, s.h, 0, ranges::high_end(bd)) {
        Some(i) => Err(Reason::Sample(i / s.w * stride + i % s.w)),
        None => Ok(()),
    }
}

// Refusals 5 and 6 of the add call, by a plane of room samples and count coefficients.
pub fn judge_reach(room: usize, stride: usize, count: usize, s: Size) -> Result<(), Reason>
    requires { Sides s.w s.h }
    ensures { verdict_of result ≡ on_plane s.w s.h room stride count done }
{
    if stride < s.w || 65536 < stride {
        return Err(Reason::Stride);
    }
    if count < tables::size::cut_of(s.w) * tables::size::cut_of(s.h) {
        return Err(Reason::Length(Slice::Read));
    }
    if room < (s.h - 1) * stride + s.w {
        return Err(Reason::Length(Slice::Picture));
    }
    Ok(())
}

// Refusals 5 to 8 of the add call.
fn judge_plane(
    dst: &[i32],
    stride: usize,
    coeff: &[i32],
    s: Size,
    bd: u32,
    strict: bool,
) -> Result<(), Reason>
    requires { (bd ≤ 12) × Sides s.w s.h }
    ensures { verdict_of result ≡ on_plane s.w s.h (length dst.now) stride (length coeff.now) (numbers strict s.w s.h bd coeff.now dst.now stride) }
{
    judge_reach(dst.len(), stride, coeff.len(), s)?;
    judge_numbers(coeff, dst, stride, s, bd, strict)
}

// Refusals 6 to 8 of the float call, whose output has room numbers.
fn judge_buffers(
    room: usize,
    coeff: &[i32],
    pred: &[i32],
    s: Size,
    bd: u32,
    strict: bool,
) -> Result<(), Reason>
    requires { (bd ≤ 12) × Sides s.w s.h }
    ensures { verdict_of result ≡ on_buffers s.w s.h room (length coeff.now) (length pred.now) (numbers strict s.w s.h bd coeff.now pred.now s.w) }
{
    if coeff.len() < tables::size::cut_of(s.w) * tables::size::cut_of(s.h) {
        return Err(Reason::Length(Slice::Read));
    }
    if pred.len() < s.h * s.w {
        return Err(Reason::Length(Slice::Picture));
    }
    if room < s.h * s.w {
        return Err(Reason::Length(Slice::Output));
    }
    judge_numbers(coeff, pred, s.w, s, bd, strict)
}

// What the add call answers.
pub fn judge_add(
    dst: &[i32],
    stride: usize,
    coeff: &[i32],
    txtp: usize,
    tx: usize,
    bd: u32,
    strict: bool,
) -> Result<(), Reason>
    ensures { verdict_of result ≡ add_verdict strict dst.now stride coeff.now txtp tx bd }
{
    judge_kinds(txtp, tx, bd)?;
    judge_plane(dst, stride, coeff, tables::size::size_of(tx), bd, strict)
}

// What the float call answers.
pub fn judge_float(
    room: usize,
    coeff: &[i32],
    txtp: usize,
    tx: usize,
    bd: u32,
    pred: &[i32],
    strict: bool,
) -> Result<(), Reason>
    ensures { verdict_of result ≡ float_verdict strict room coeff.now txtp tx bd pred.now }
{
    judge_kinds(txtp, tx, bd)?;
    judge_buffers(room, coeff, pred, tables::size::size_of(tx), bd, strict)
}
