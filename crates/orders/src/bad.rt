// What is wrong with a line (docs/GLASS.md has the words).
use crate::names::Form;
use std::error::Error;
use std::fmt;

#[derive(Clone, Copy, Debug, PartialEq, Eq)]
pub enum Bad {
    NoCommand,
    TooMany(usize), // More numbers than there may be.
    NoNumber(usize), // A word, counted from 1, that is no number.
    Takes(&'static str, Form), // Another count of numbers than the command takes.
    Negative(usize), // A number, counted from 1, that may not be negative.
    Sides,
    Pad,
    NoScreen,
    Coefficients(usize), // How many there may be.
    Sample { place: usize, high: i32 }, // A number, counted from 1, that is no sample.
    Steps(usize), // How many there may be.
    NothingKept,
    NoRow,
    NoColumn,
}

impl fmt::Display for Bad {
    fn fmt<W: fmt::Write>(&self, f: &mut fmt::Formatter<W>) -> fmt::Result {
        match *self {
            Bad::NoCommand => write!(f, "no such command"),
            Bad::TooMany(n) => write!(f, "more than {n} numbers"),
            Bad::NoNumber(k) => write!(
                f,
                "number {k} is no whole number from -2147483647 to 2147483647"
            ),
            Bad::Takes(word, form) => write!(f, "{word} takes {form}"),
            Bad::Negative(k) => write!(f, "number {k} is negative"),
            Bad::Sides => write!(f, "sides are 4 to 256, depth 8 to 12"),
            Bad::Pad => write!(f, "a pad is 0 to 64"),
            Bad::NoScreen => write!(f, "no screen yet"),
            Bad::Coefficients(n) => write!(f, "the block has {n} coefficients"),
            Bad::Sample { place, high } => write!(f, "number {place} is outside 0 to {high}"),
            Bad::Steps(n) => write!(f, "no more than {n} steps"),
            Bad::NothingKept => write!(f, "nothing kept"),
            Bad::NoRow => write!(f, "no such row"),
            Bad::NoColumn => write!(f, "no such column"),
        }
    }
}

impl Error for Bad {}
