// The levels of a change into a wanted block.
ghost use Rattle.std.specs.Prelude.{◌≡◌, ◌+◌, ◌*◌, ◌≤◌, length};
ghost use Rattle.lossless.specs.Wanted.{Samples};
ghost use Rattle.screen.specs.Steps.{gaps_of, levels_to, Near};

use crate::Screen;

// The wanted samples less the present ones.
fn differences(plane: &[i32], start: usize, stride: usize, wanted: &[i32], gaps: &mut [i32])
    requires { (start + 3 * stride + 4 ≤ length plane.now) × (length gaps.old ≡ 16) × Near plane.now start stride wanted.now }
    ensures { gaps.new ≡ gaps_of plane.now start stride wanted.now }
{
    for k in 0..16 {
        let z = wanted[k] - plane[start + k / 4 * stride + k % 4];
        gaps[k] = z;
    }
}

impl Screen {
    // The levels that lead from the present block to the wanted one.
    pub fn levels_to(
        self,
        plane: &[i32],
        row: usize,
        column: usize,
        wanted: &[i32],
        levels: &mut [i32],
    )
        requires { (length plane.now ≡ self.stride * self.height) × (self.depth ≤ 12) × Samples self.depth wanted.now × (length levels.old ≡ 16) × (self.width ≤ self.stride) }
        ensures { levels.new ≡ levels_to self.depth self.stride self.width self.height row column plane.now wanted.now levels.old }
    {
        if !self.stands(row, column, 4, 4) {
            return;
        }
        let start = row * self.stride + column;
        let hi = ranges::high_end(self.depth);
        match ranges::find_outside(plane, start, self.stride, 4, 4, 0, hi) {
            Some(_) => {}
            None => {
                let mut gaps = [0i32; 16];
                differences(plane, start, self.stride, wanted, &mut gaps);
                wht::levels(&gaps, levels);
            }
        }
    }
}
