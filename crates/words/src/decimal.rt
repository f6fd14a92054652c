// Decimal numbers of a line.
ghost use Rattle.std.specs.Prelude.{[], ◌≡◌, ◌≤◌, ◌<◌, true, false, pos, length, drop, MatchOption, MatchResult};
ghost use Rattle.words.specs.Words.{size_of, none, number_of, is_number, words_of, Taken};

use crate::text::pass;

// The number that the decimal digits of a word are: none where there are none, where one is no digit, or where it is no i32.
fn digits(word: &[u8]) -> Option<i32>
    ensures { MatchOption result (size_of word.now ≡ none) (λ z. (size_of word.now ≤ 2147483647) × (z ≡ pos (size_of word.now))) }
{
    if word.is_empty() {
        return None;
    }
    let mut v: u32 = 0;
    for b in word {
        // One digit more would pass the largest number.
        let large = 214748364 < v;
        let digit = b.is_ascii_digit();
        if large || !digit {
            return None;
        }
        v = 10 * v + (b - b'0') as u32;
    }
    i32::try_from(v).ok()
}

// The number that a word is, if it is one.
fn number(word: &[u8]) -> Option<i32>
    requires { 0 < length word.now }
    ensures { MatchOption result (is_number word.now ≡ false) (λ z. (is_number word.now ≡ true) × (z ≡ number_of word.now)) }
{
    if word[0] == b'-' {
        let z = digits(&word[1..])?;
        return Some(-z);
    }
    digits(word)
}

// Puts the whole numbers of the line, from a place on, at the start of list: how many there are.
// A number is an optional '-' and then one or more decimal digits, its size at most 2147483647.
// Stops at the first word that is no number, or for which list has no room: the error says how many numbers came before it.
pub fn numbers(line: &[u8], from: usize, list: &mut [i32]) -> Result<usize, usize>
    requires { from ≤ length line.now }
    ensures count_in_bounds { MatchResult result (λ n. n ≤ length list.old) (λ n. n ≤ length list.old) }
    ensures taken { MatchResult result (λ n. Taken (words_of [] (drop from line.now)) list.old list.new n true) (λ n. Taken (words_of [] (drop from line.now)) list.old list.new n false) }
{
    let mut count: usize = 0;
    let mut at = pass(line, from, true);
    // Kept: a turn goes on to the next word, by what `pass` promises; a `for` has no such step.
    while at < line.len() {
        if list.len() <= count {
            return Err(count);
        }
        let end = pass(line, at + 1, false);
        let Some(z) = number(&line[at..end]) else {
            return Err(count);
        };
        list[count] = z;
        count += 1;
        at = pass(line, end, true);
    }
    Ok(count)
}
