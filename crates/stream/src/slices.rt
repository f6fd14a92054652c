// Words and slices of numbers, read from an input and written to standard output.
ghost use Rattle.std.specs.Prelude.{◌*◌, ◌≤◌, length, IfOk};

use crate::nums;
use answers::Answer;
use lines::input::read_full;
use std::io;
use std::io::Read;
use std::num::TryFromIntError;

// The most numbers that a slice has.
pub const LIMIT: usize = 20000;

// The most that a trimmed one has.
pub const TRIMMED: usize = 70000;

// Room for their bytes.
pub const LIMIT_BYTES: usize = 80000;

pub const TRIMMED_BYTES: usize = 280000;

// Why no case can be read: the stream breaks the rules, or it can't be read or written.
#[derive(Clone, Copy)]
pub enum Stop {
    Broken,
    Io(io::Error),
}

impl From<io::Error> for Stop {
    fn from(e: io::Error) -> Stop {
        Stop::Io(e)
    }
}

impl From<TryFromIntError> for Stop {
    fn from(_e: TryFromIntError) -> Stop {
        Stop::Broken
    }
}

// The next word, if the input doesn't end before it.
pub fn next_word(input: &mut impl Read) -> Result<Option<u64>, Stop> {
    let mut bytes = [0u8; 8];
    match read_full(input, &mut bytes)? {
        0 => Ok(None),
        8 => Ok(Some(nums::word_at(&bytes, 0))),
        _ => Err(Stop::Broken),
    }
}

// The next word of a case.
pub fn read_word(input: &mut impl Read) -> Result<u64, Stop> {
    next_word(input)?.ok_or(Stop::Broken)
}

// The next word as a count, at most `most`.
fn read_count(input: &mut impl Read, most: usize) -> Result<usize, Stop>
    ensures { IfOk result (λ n. n ≤ most) }
{
    let n = usize::try_from(read_word(input)?)?;
    if most < n {
        return Err(Stop::Broken);
    }
    Ok(n)
}

// The next numbers, as many as the list has.
fn read_nums(input: &mut impl Read, bytes: &mut [u8], list: &mut [i32]) -> Result<(), Stop>
    requires { 4 * length list.old ≤ length bytes.old }
{
    let part = &mut bytes[..4 * list.len()];
    if read_full(input, part)? < part.len() {
        return Err(Stop::Broken);
    }
    nums::decode(part, list);
    Ok(())
}

// The next slice, to the start of a list: how many numbers it has.
pub fn read_slice(input: &mut impl Read, bytes: &mut [u8], list: &mut [i32]) -> Result<usize, Stop>
    requires { (80000 ≤ length bytes.old) × (20000 ≤ length list.old) }
    ensures { IfOk result (λ n. n ≤ 20000) }
{
    let n = read_count(input, LIMIT)?;
    read_nums(input, bytes, &mut list[..n])?;
    Ok(n)
}

// The next trimmed slice, in the same way.
pub fn read_trimmed(
    input: &mut impl Read,
    bytes: &mut [u8],
    list: &mut [i32],
) -> Result<usize, Stop>
    requires { (280000 ≤ length bytes.old) × (70000 ≤ length list.old) }
    ensures { IfOk result (λ n. n ≤ 70000) }
{
    let n = read_count(input, TRIMMED)?;
    let count = read_count(input, n)?;
    read_nums(input, bytes, &mut list[..count])?;
    list[count..].fill(0);
    Ok(n)
}

// Writes a word.
pub fn write_word(rt: &impl Print, word: u64) -> io::Result<()> {
    let mut bytes = [0; 8];
    nums::put_word(&mut bytes, 0, word);
    rt.write_all(&bytes)
}

// Writes an answer, as three words.
pub fn write_answer(rt: &impl Print, r: Answer) -> io::Result<()> {
    write_word(rt, r.number as u64)?;
    write_word(rt, r.place as u64)?;
    write_word(rt, r.slice as u64)
}

// Writes the numbers of a slice.
pub fn write_slice(rt: &impl Print, bytes: &mut [u8], list: &[i32]) -> io::Result<()>
    requires { 4 * length list.now ≤ length bytes.old }
{
    nums::encode(list, bytes);
    rt.write_all(&bytes[..4 * list.len()])
}

// Writes a trimmed slice: how many numbers there are up to the last that is not 0, and these.
pub fn write_trimmed(rt: &impl Print, bytes: &mut [u8], list: &[i32]) -> io::Result<()>
    requires { 4 * length list.now ≤ length bytes.old }
{
    let n = nums::used(list);
    write_word(rt, n as u64)?;
    write_slice(rt, bytes, &list[..n])
}
