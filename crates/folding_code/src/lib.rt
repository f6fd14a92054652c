// Folding: pairs of remaining steps on one block become one step. Document 02, section 10.
#![tactic(auto)]

ghost use Rattle.std.specs.Prelude.{◌≡◌, length};
ghost use Rattle.keeping.specs.Range.{area};
ghost use Rattle.folding.specs.Fold.{three_of, fold_of};

use answers::{Answer, Reason};
use keeping::front;
use keeping::front::Area;
use remain::{cells, words};

// Who goes into whom, and the folded list put in the place of the list.
pub mod fold;

// Pairs of steps on one block folded together, until none is left; the steps then numbered from 1, the index made anew.
pub fn history_fold(
    plane: &[i32],
    stride: usize,
    width: usize,
    rows: usize,
    steps: &mut [u32],
    levels: &mut [i32],
    index: &mut [u32],
) -> Answer
    ensures { (result, three_of steps.new levels.new index.new)
        ≡ fold_of (area (length plane.now) stride width rows) steps.old levels.old index.old }
{
    let area = Area {
        size: plane.len(),
        stride,
        width,
        rows,
    };
    if let Err(reason) = front::judge_kept(area, steps, levels, index.len()) {
        return Answer::from(reason);
    }
    let n = words::word(steps, 0);
    let mut o = [0u16; 4096];
    if !fold::owners(steps, levels, n, &mut o) {
        return Answer::from(Reason::History);
    }
    fold::put_back(steps, levels, &o, n);
    cells::rebuild(steps, width, rows, index);
    answers::finished()
}
