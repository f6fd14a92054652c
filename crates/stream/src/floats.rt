// f32 numbers by their bits. The language has no bits of a NaN, so a NaN's bits are kept beside the float.
ghost use Rattle.std.specs.Prelude.{◌≡◌, length};
ghost use Rattle.std.specs.Float.{binary32};
ghost use Rattle.std.specs.Int.{w32};
ghost use Rattle.std.proofs.Common.{of_z};
ghost use Rattle.std.specs.Float.Ieee.{nan_bits};
ghost use Rattle.stream.specs.Floats.{stands_for, float_of, bits_of, floats_of, bits_back};

use crate::nums::turn;

// Whether these are the bits of a NaN: an exponent of ones, and not an infinity.
fn is_nan(bits: u32) -> bool
    ensures { result ≡ nan_bits binary32 bits }
{
    bits % 2147483648 / 8388608 == 255 && bits % 8388608 != 0
}

// The float of these bits; for a NaN's bits -1, which no call writes.
#[tactic(auto, unfolding(crate::specs::Floats::float_of))]
fn float_of(bits: u32) -> f32
    ensures { result ≡ float_of bits }
{
    if is_nan(bits) {
        return -1.0;
    }
    f32::from_bits(bits)
}

// Whether a float still stands for a NaN of these bits.
fn stands_for(x: f32, bits: u32) -> bool
    ensures { result ≡ stands_for x bits }
{
    is_nan(bits) && x < 0.0
}

// The bits of a float that was handed on in place of these bits: they themselves where it still stands for a NaN.
#[tactic(auto, unfolding(crate::specs::Floats::bits_of))]
fn bits_of(x: f32, bits: u32) -> u32
    ensures { result ≡ bits_of x bits }
{
    if stands_for(x, bits) || x.is_nan() {
        return bits;
    }
    x.to_bits()
}

// The float of the bits of a signed number.
fn float_at(z: i32) -> f32
    ensures { result ≡ float_of (of_z w32 z) }
{
    float_of(z.cast_unsigned())
}

// The floats of a slice of bits.
pub fn load(bits: &[i32], list: &mut [f32])
    requires { length bits.now ≡ length list.old }
    ensures { list.new ≡ floats_of bits.now }
{
    turn(bits, list, float_at);
}

// The bits of a slice of floats that load made of these bits, and that a call may have written to.
pub fn store(list: &[f32], bits: &mut [i32])
    requires { length bits.old ≡ length list.now }
    ensures { bits.new ≡ bits_back list.now bits.old }
{
    for (i, z) in bits.iter_mut().enumerate() {
        *z = bits_of(list[i], z.cast_unsigned()).cast_signed();
    }
}
