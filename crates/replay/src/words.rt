// The words of a case as what a call is handed. All of them are read before any is judged.
use std::io::Read;
use stream::nums;
use stream::slices::{Stop, read_word};

// The next words.
pub fn read<const N: usize>(input: &mut impl Read) -> Result<[u64; N], Stop> {
    let mut words = [0; N];
    for word in &mut words {
        *word = read_word(input)?;
    }
    Ok(words)
}

// A size, a place or a count.
pub fn as_usize(word: u64) -> Result<usize, Stop> {
    Ok(usize::try_from(word)?)
}

// A depth, or the number of a step.
pub fn as_u32(word: u64) -> Result<u32, Stop> {
    Ok(u32::try_from(word)?)
}

// A sine or a cosine.
pub fn as_i32(word: u64) -> Result<i32, Stop> {
    nums::narrow(word).ok_or(Stop::Broken)
}
