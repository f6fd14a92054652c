// The lines of events.
use answers::Answer;
use std::{fmt, io};

// Writes the events of a line of the script.
#[derive_where(Clone, Copy)]
pub struct Log<'a, R> {
    pub rt: &'a R,
    pub line: usize,
}

impl<'a, R: Print> Log<'a, R> {
    pub fn event(&self, words: &impl fmt::Display) -> io::Result<()> {
        let line = self.line;
        println!(self.rt; "# line {line}: {words}")
    }
}

// A row and a column.
#[derive(Clone, Copy)]
pub struct Place {
    pub row: usize,
    pub column: usize,
}

impl fmt::Display for Place {
    fn fmt<W: fmt::Write>(&self, f: &mut fmt::Formatter<W>) -> fmt::Result {
        write!(f, "row {}, column {}", self.row, self.column)
    }
}

// A call on the history that was done, with so many steps left.
#[derive(Clone, Copy)]
pub struct Left(pub usize);

impl fmt::Display for Left {
    fn fmt<W: fmt::Write>(&self, f: &mut fmt::Formatter<W>) -> fmt::Result {
        write!(f, "done, steps {}", self.0)
    }
}

// How a call ended: what is said where it was done, or its refusal.
#[derive(Clone, Copy)]
pub struct Ended<D> {
    pub answer: Answer,
    pub done: D,
}

impl<D: fmt::Display> fmt::Display for Ended<D> {
    fn fmt<W: fmt::Write>(&self, f: &mut fmt::Formatter<W>) -> fmt::Result {
        let a = self.answer;
        if a.number == 0 {
            return write!(f, "{}", self.done);
        }
        write!(
            f,
            "refused {}, slice {}, place {}: {}{}",
            a.number,
            a.slice,
            a.place,
            about(a.number),
            about_slice(a.slice)
        )
    }
}

// Item k of a list; nothing where there are fewer. The first has number 0.
fn item(list: &[&'static str], k: usize) -> &'static str {
    list.get(k).copied().unwrap_or("")
}

// What a refusal is about.
fn about(number: u32) -> &'static str {
    item(
        &[
            "",
            "depth",
            "size number",
            "type number",
            "kind",
            "stride",
            "length or place",
            "coefficient or level",
            "sample",
            "",
            "sample after the step",
            "",
            "history",
            "step to take out",
            "room for a step",
        ],
        number as usize,
    )
}

// The slice that a refusal is about, where there is one.
fn about_slice(slice: u32) -> &'static str {
    item(
        &[
            "",
            ", coefficients or levels",
            ", prediction or plane",
            ", output",
            ", first chroma",
            ", second chroma",
        ],
        slice as usize,
    )
}
