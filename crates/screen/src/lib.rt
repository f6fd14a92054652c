// A screen: its plane, blocks on it, and the levels of a change. What may be said of it stands in specs/.
//     command     the commands on a screen
//     make        a new screen
//     plane       the samples: a new plane, blocks, the first difference, the first mark that isn't as it was
//     steps       the levels that lead to a wanted block
#![tactic(auto)]

pub mod command;
pub mod make;
pub mod plane;
pub mod steps;

pub use make::{new_screen, possible};

// A screen.
#[derive(Clone, Copy)]
pub struct Screen {
    pub stride: usize, // The samples of a line: the visible ones, and the pad.
    pub width: usize,
    pub height: usize,
    pub depth: u32,
    // Kept: a flag, since the copy lies in a room of fixed size that no screen can own.
    pub kept: bool, // Whether there is a kept copy.
}
