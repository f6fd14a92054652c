// A plane as a picture in plain PGM.
ghost use Rattle.std.specs.Prelude.{◌*◌, ◌≤◌, ◌≡◌, length};

use screen::Screen;
use std::io;

// The samples of a row, at most 14 to a line. A row of none is an empty line.
fn row(rt: &impl Print, samples: &[i32]) -> io::Result<()> {
    if samples.is_empty() {
        return lines::line(rt, samples);
    }
    for part in samples.chunks(14) {
        lines::line(rt, part)?;
    }
    Ok(())
}

// The visible part of the lines of a plane.
pub fn show(rt: &impl Print, plane: &[i32], s: Screen) -> io::Result<()>
    requires { (length plane.now ≡ s.stride * s.height) × (s.width ≤ s.stride) × (s.depth ≤ 12) }
{
    let high = ranges::high_end(s.depth);
    let width = s.width;
    let height = s.height;
    println!(rt; "P2\n{width} {height}\n{high}")?;
    // Kept: over `chunks_exact` it stayed open that a line is as long as the stride.
    for y in 0..height {
        let a = y * s.stride;
        let e = a + width;
        row(rt, &plane[a..e])?;
    }
    Ok(())
}
