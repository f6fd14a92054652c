// Blanks and words of a line, and where a line ends.
ghost use Rattle.std.specs.Prelude.{◌≡◌, ◌==◌, ◌-◌, ◌≤◌, length};
ghost use Rattle.std.specs.List.{prefix_len, position_or_len};
ghost use Rattle.std.proofs.Math.Seq.{slice};
ghost use Rattle.whole.specs.Search.{seek};
ghost use Rattle.words.specs.Words.{blank, passed, passed_at, alike, in_line_at};

#[tactic(auto, unfolding(crate::specs::Words::blank))]
fn is_blank(b: u8) -> bool
    ensures { result ≡ blank b }
{
    matches!(b, b' ' | b'\t' | b'\r')
}

// Whether `pass` goes on over a byte.
#[tactic(auto, unfolding(crate::specs::Words::passed))]
fn passes(b: u8, blanks: bool) -> bool
    ensures { result ≡ passed blanks b }
{
    if blanks { is_blank(b) } else { !is_blank(b) }
}

// How many bytes at the start are blank, or, with blanks false, are not.
fn run(bytes: &[u8], blanks: bool) -> usize
    ensures value { result ≡ prefix_len (passed blanks) bytes.now }
    ensures bound { result ≤ length bytes.now }
{
    bytes.iter().take_while(|b| passes(**b, blanks)).count()
}

// The first place from `from` on that is not blank, or, with blanks false, that is. The end of the line where there is none.
pub fn pass(line: &[u8], from: usize, blanks: bool) -> usize
    requires { from ≤ length line.now }
    ensures lower_bound { (from ≤ result) × (result ≤ length line.now) }
    ensures value { result ≡ seek (passed_at blanks line.now) from (length line.now - from) }
{
    from + run(&line[from..], blanks)
}

// Whether the bytes from `from` up to `to` are those of word.
pub fn same(line: &[u8], from: usize, to: usize, word: &[u8]) -> bool
    requires { (from ≤ to) × (to ≤ length line.now) }
    ensures { result ≡ alike (slice from to line.now) word.now }
{
    &line[from..to] == word
}

// How many bytes come before the first line feed.
fn line_len(text: &[u8]) -> usize
    ensures value { result ≡ position_or_len (λ b. b == 10) text.now }
    ensures bound { result ≤ length text.now }
{
    text.iter().take_while(|b| **b != b'\n').count()
}

// The end of the line that starts at `from`: the next line feed, or the end of the text.
pub fn line_end(text: &[u8], from: usize) -> usize
    requires { from ≤ length text.now }
    ensures lower_bound { (from ≤ result) × (result ≤ length text.now) }
    ensures value { result ≡ seek (in_line_at text.now) from (length text.now - from) }
{
    from + line_len(&text[from..])
}
