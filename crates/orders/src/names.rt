// The commands by their words, and how many numbers each takes.
ghost use Rattle.std.specs.Prelude.{◌≤◌, ◌≡◌, true, IfSome};
ghost use Rattle.words.specs.Words.{alike};
ghost use Rattle.orders.specs.Forms.{form_of, takes_of, heads_of, Of};

use screen::command::{Act, Call, Command, Look};
use std::fmt;

// What numbers a command takes.
#[derive(Clone, Copy, Debug, PartialEq, Eq)]
pub enum Form {
    Nothing,
    Screen,
    Block,
    Change,
    Count,
    Number,
    Place,
}

// The form by its number: any other than these six takes nothing.
impl From<u32> for Form {
    ghost from_gives = { λ n f. f ≡ form_of n };

    fn from(number: u32) -> Form {
        match number {
            1 => Form::Screen,
            2 => Form::Block,
            3 => Form::Change,
            4 => Form::Count,
            5 => Form::Number,
            6 => Form::Place,
            _ => Form::Nothing,
        }
    }
}

impl fmt::Display for Form {
    fn fmt<W: fmt::Write>(&self, f: &mut fmt::Formatter<W>) -> fmt::Result {
        f.write_str(match self {
            Form::Nothing => "nothing",
            Form::Screen => "WIDTH HEIGHT DEPTH and a pad or nothing",
            Form::Block => "ROW COLUMN SIZE TYPE and coefficients",
            Form::Change => "ROW COLUMN and 16 samples",
            Form::Count => "a count or nothing",
            Form::Number => "a NUMBER",
            Form::Place => "ROW COLUMN",
        })
    }
}

impl Form {
    // Whether it has so many numbers.
    pub fn takes(self, count: usize) -> bool
        ensures { result ≡ takes_of self count }
    {
        match self {
            Form::Nothing => count == 0,
            Form::Screen => count == 3 || count == 4,
            Form::Block => 4 <= count,
            Form::Change => count == 18,
            Form::Count => count <= 1,
            Form::Number => count == 1,
            Form::Place => count == 2,
        }
    }

    // How many of the numbers, the first, may not be negative.
    pub fn heads(self, count: usize) -> usize
        ensures most { result ≤ 4 }
        ensures value { result ≡ heads_of self count }
    {
        match self {
            Form::Change => 2,
            _ => count.min(4),
        }
    }
}

// Whether a form, or the one of a number, has so many numbers.
pub fn takes<F: Into<Form>>(form: F, count: usize) -> bool
    ensures { Of (F.converts form) (λ f. takes_of f count) result }
{
    let form: Form = form.into();
    form.takes(count)
}

// How many of its numbers, the first, may not be negative.
pub fn heads<F: Into<Form>>(form: F, count: usize) -> usize
    ensures most { result ≤ 4 }
    ensures value { Of (F.converts form) (λ f. heads_of f count) result }
{
    let form: Form = form.into();
    form.heads(count)
}

// A command, its word, and what it takes.
#[derive(Clone, Copy)]
pub struct Entry {
    pub word: &'static str,
    pub command: Command,
    pub form: Form,
}

const COMMANDS: [Entry; 13] = [
    Entry {
        word: "screen",
        command: Command::Begin,
        form: Form::Screen,
    },
    Entry {
        word: "block",
        command: Command::Changes(Act::One(Call::Block)),
        form: Form::Block,
    },
    Entry {
        word: "change",
        command: Command::Changes(Act::One(Call::Change)),
        form: Form::Change,
    },
    Entry {
        word: "withdraw",
        command: Command::Changes(Act::One(Call::Withdraw)),
        form: Form::Number,
    },
    Entry {
        word: "fold",
        command: Command::Changes(Act::One(Call::Fold)),
        form: Form::Nothing,
    },
    Entry {
        word: "undo",
        command: Command::Changes(Act::Undo),
        form: Form::Count,
    },
    Entry {
        word: "keep",
        command: Command::Keep,
        form: Form::Nothing,
    },
    Entry {
        word: "show",
        command: Command::Looks(Look::Show),
        form: Form::Nothing,
    },
    Entry {
        word: "compare",
        command: Command::Looks(Look::Compare),
        form: Form::Nothing,
    },
    Entry {
        word: "pad",
        command: Command::Looks(Look::Pad),
        form: Form::Nothing,
    },
    Entry {
        word: "free",
        command: Command::Looks(Look::Free),
        form: Form::Number,
    },
    Entry {
        word: "who",
        command: Command::Looks(Look::Who),
        form: Form::Place,
    },
    Entry {
        word: "steps",
        command: Command::Looks(Look::Steps),
        form: Form::Nothing,
    },
];

// The command of a word.
pub fn find(word: &[u8]) -> Option<Entry>
    ensures { IfSome result (λ e. alike word.now e.word.now ≡ true) }
{
    COMMANDS
        .iter()
        .find(|e| words::same(word, 0, word.len(), e.word.as_bytes()))
        .copied()
}
