// Numbers as bytes, the lowest byte first, and lists of numbers turned into others.
ghost use Rattle.std.specs.Prelude.{ℕ, ◌+◌, ◌*◌, ◌<◌, ◌≤◌, ◌≡◌, true, false, pos, nat_abs, length, get_or, MatchOption, OnOk};
ghost use Rattle.std.specs.Int.{w32, w64};
ghost use Rattle.std.proofs.Common.{to_z, of_z};
ghost use Rattle.whole.specs.Numbers.{in_range, lowest, highest};
ghost use Rattle.whole.specs.Sums.{tab};
ghost use Rattle.stream.specs.Bytes.{num_at, word_at, word_put, nums_put};

use std::num::TryFromIntError;

// The eight bytes from a place on, as a number.
pub fn word_at(bytes: &[u8], at: usize) -> u64
    requires { at + 8 ≤ length bytes.now }
    ensures { result ≡ word_at bytes.now at }
{
    let mut word = [0; 8];
    word.copy_from_slice(&bytes[at..at + 8]);
    u64::from_le_bytes(word)
}

// A word as eight bytes, from a place on.
pub fn put_word(bytes: &mut [u8], at: usize, word: u64)
    requires { at + 8 ≤ length bytes.old }
    ensures { bytes.new ≡ word_put bytes.old at word }
{
    bytes[at..at + 8].copy_from_slice(&word.to_le_bytes());
}

// The signed number of a word, where it is an i32.
pub fn narrow(word: u64) -> Option<i32>
    ensures { MatchOption result (in_range (lowest 31) (highest 31) (to_z w64 word) ≡ false) (λ z. (in_range (lowest 31) (highest 31) (to_z w64 word) ≡ true) × (z ≡ to_z w64 word)) }
{
    i32::try_from(word.cast_signed()).ok()
}

// What f makes of each number of a list.
pub fn turn<A: Copy, B: Copy, F: Fn(A) -> B>(list: &[A], out: &mut [B], f: F)
    requires callable { F.IsAlwaysCallable f }
    requires long { length list.now ≡ length out.old }
    ensures { (k : ℕ) (x : A) (y : B) → k < length list.now → F.post f (get_or list.now k x) (get_or out.new k y) }
{
    for (i, y) in out.iter_mut().enumerate() {
        *y = f(list[i]);
    }
}

// Bytes as signed numbers, four bytes each.
pub fn decode(bytes: &[u8], list: &mut [i32])
    requires { 4 * length list.old ≤ length bytes.now }
    ensures { list.new ≡ tab (length list.old) (λ k. to_z w32 (num_at bytes.now (4 * k))) }
{
    let n = list.len();
    turn(&bytes.as_chunks::<4>().0[..n], list, i32::from_le_bytes);
}

// Signed numbers as bytes, four each.
pub fn encode(list: &[i32], bytes: &mut [u8])
    requires { 4 * length list.now ≤ length bytes.old }
    ensures { bytes.new ≡ nums_put bytes.old 0 list.now }
{
    for (i, z) in list.iter().enumerate() {
        bytes[4 * i..4 * i + 4].copy_from_slice(&z.to_le_bytes());
    }
}

// Signed numbers as unsigned ones, by their bits.
pub fn unsigned(list: &[i32], out: &mut [u32])
    requires { length list.now ≡ length out.old }
    ensures { out.new ≡ tab (length list.now) (λ k. of_z w32 (get_or list.now k (pos 0))) }
{
    turn(list, out, i32::cast_unsigned);
}

// Unsigned numbers as signed ones, by their bits.
pub fn resigned(list: &[u32], out: &mut [i32])
    requires { length list.now ≡ length out.old }
    ensures { out.new ≡ tab (length list.now) (λ k. to_z w32 (get_or list.now k 0)) }
{
    turn(list, out, u32::cast_signed);
}

// Numbers as bytes, if each is one.
pub fn narrowed(list: &[i32], out: &mut [u8]) -> Result<(), TryFromIntError>
    requires { length list.now ≡ length out.old }
    ensures { OnOk result (out.new ≡ tab (length list.now) (λ k. nat_abs (get_or list.now k (pos 0)))) }
{
    for (i, b) in out.iter_mut().enumerate() {
        *b = u8::try_from(list[i])?;
    }
    Ok(())
}

// Bytes as numbers.
pub fn widen(list: &[u8], out: &mut [i32])
    requires { length list.now ≡ length out.old }
    ensures { out.new ≡ tab (length list.now) (λ k. pos (get_or list.now k 0)) }
{
    turn(list, out, i32::from);
}

// How many numbers there are up to the last that is not 0.
pub fn used(list: &[i32]) -> usize
    ensures { result ≤ length list.now }
{
    list.iter().rposition(|z| *z != 0).map_or(0, |i| i + 1)
}
