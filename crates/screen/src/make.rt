// A new screen.
ghost use Rattle.std.specs.Prelude.{◌≡◌, ◌+◌, ◌-◌, ◌*◌, ◌^◌, ◌≤◌, pos, length};
ghost use Rattle.screen.specs.Screens.{Sound, Blank, possible_of};

use crate::Screen;
use ranges::between;

impl Screen {
    // The same screen, of which a copy is kept.
    pub fn with_copy(mut self) -> Screen
        ensures { (result.stride ≡ self.stride) × (result.width ≡ self.width) × (result.height ≡ self.height) × (result.depth ≡ self.depth) }
    {
        self.kept = true;
        self
    }

    // How many samples it has, those of the pad too.
    pub fn samples(self) -> usize
        requires { (self.stride ≤ 320) × (self.height ≤ 256) }
        ensures count { result ≡ self.stride * self.height }
        ensures most { result ≤ 81920 }
    {
        self.stride * self.height
    }
}

// Whether a screen may have these sides and this depth.
pub fn possible(width: usize, height: usize, depth: usize) -> bool
    ensures { result ≡ possible_of width height depth }
{
    between(width, 4, 256) && (between(height, 4, 256) && between(depth, 8, 12))
}

// The middle grey.
fn grey(depth: usize) -> i32
    requires { (8 ≤ depth) × (depth ≤ 12) }
    ensures { result ≡ pos (2 ^ (depth - 1)) }
{
    match depth {
        8 => 128,
        9 => 256,
        10 => 512,
        11 => 1024,
        _ => 2048,
    }
}

// A new screen, all of the middle grey, with its marks in the pad.
pub fn new_screen(width: usize, height: usize, depth: usize, pad: usize, room: &mut [i32]) -> Screen
    requires { (4 ≤ width) × (width ≤ 256) × (height ≤ 256) × (8 ≤ depth) × (depth ≤ 12) × (pad ≤ 64) × (81920 ≤ length room.old) }
    ensures sound { Sound result }
    ensures sides { (result.stride ≡ width + pad) × (result.width ≡ width) × (result.height ≡ height) × (result.depth ≡ depth) }
    ensures blank { Blank result room.new }
{
    let s = Screen {
        stride: width + pad,
        width,
        height,
        depth: depth as u32,
        kept: false,
    };
    let n = s.samples();
    s.blank(&mut room[..n], grey(depth));
    s
}
