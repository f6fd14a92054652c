// What a command makes of the screen's memory: its plane, and the history of steps that can be taken back (document 02, sections 9 and 10).
// plane: the samples; steps, levels, index: the history as `history` keeps it. All of it is lent at its exact length.
// Kept: these slices travel one by one, since `history_step` and the other calls of document 02 take them so.
#![tactic(auto)]

ghost use Rattle.std.specs.Prelude.{true, List, ◌≡◌, ◌*◌, ◌≤◌, ◌<◌, ℤ, length, set, Some};
ghost use Rattle.answers.specs.Answers.{done};
ghost use Rattle.whole.specs.Sums.{tab};
ghost use Rattle.lossless.specs.Wanted.{Samples};
ghost use Rattle.remain.specs.Remaining.{count};
ghost use Rattle.remain.specs.Touch.{across};
ghost use Rattle.history.specs.Calls.{lent, undo_of};
ghost use Rattle.screen.specs.Screens.{Sound, Blank, possible_of};
ghost use Rattle.screen.specs.Steps.{wanted};
ghost use Rattle.screen.specs.Commands.{call_of, CallFits};
ghost use Rattle.past.specs.Commands.{redrawn_of, changed_of, obey_of, area_of, Past, Held, Obeyable};
ghost use Rattle.past.specs.Commands.{cells as Commands·cells};

use answers::Answer;
use screen::Screen;
use screen::command::Call;
use screen::plane::natural;

// How many cells a screen has.
pub fn cells(s: Screen) -> usize
    requires { (s.width ≤ 256) × (s.height ≤ 256) }
    ensures count { result ≡ Commands·cells s }
    ensures most { result ≤ 4096 }
{
    s.height.div_ceil(4) * s.width.div_ceil(4)
}

// No step remains, and no cell was touched.
pub fn forget(s: Screen, steps: &mut [u32], index: &mut [u32])
    requires { (s.width ≤ 65536) × (s.height ≤ 65536) × (length steps.old ≡ 16385) × (length index.old ≡ across s.height * across s.width) }
    ensures { (steps.new ≡ set steps.old 0 0) × (index.new ≡ tab (across s.height * across s.width) (λ _. 0)) }
{
    steps[0] = 0;
    remain::cells::rebuild(steps, s.width, s.height, index);
}

// A new screen, all of the middle grey, with its marks in the pad and no step.
pub fn begin(
    width: usize,
    height: usize,
    depth: usize,
    pad: usize,
    room: &mut [i32],
    steps: &mut [u32],
    index: &mut [u32],
) -> Screen
    requires { (possible_of width height depth ≡ true) × (pad ≤ 64) × (81920 ≤ length room.old) × (length steps.old ≡ 16385) × (4096 ≤ length index.old) }
    ensures sound { Sound result × Blank result room.new }
    ensures held { (levels : List ℤ) → length levels ≡ 65536 → Held (Some result) room.new steps.new levels index.new }
{
    let s = screen::new_screen(width, height, depth, pad, room);
    let n = cells(s);
    forget(s, steps, &mut index[..n]);
    s
}

// An AV2 block. A block clamps, so it can't be taken back: it begins a new history.
fn redraw(
    s: Screen,
    list: &[i32],
    plane: &mut [i32],
    steps: &mut [u32],
    levels: &[i32],
    index: &mut [u32],
) -> Answer
    requires { Obeyable s list.now plane.old steps.old index.old }
    ensures { (result, lent plane.new steps.new levels.now index.new)
        ≡ redrawn_of (area_of s plane.old) s.depth list.now (lent plane.old steps.old levels.now index.old) }
{
    let r = s.draw(list, plane);
    if r.number != 0 {
        return r;
    }
    forget(s, steps, index);
    r
}

// A change into a wanted block: one lossless step, remembered.
fn change(
    s: Screen,
    list: &[i32],
    plane: &mut [i32],
    steps: &mut [u32],
    levels: &mut [i32],
    index: &mut [u32],
) -> Answer
    requires { Obeyable s list.now plane.old steps.old index.old × Samples s.depth (wanted list.now) }
    ensures { (result, lent plane.new steps.new levels.new index.new)
        ≡ changed_of (area_of s plane.old) s.depth list.now (lent plane.old steps.old levels.old index.old) }
{
    let row = natural(list[0]);
    let column = natural(list[1]);
    let mut found = [0i32; 16];
    s.levels_to(plane, row, column, &list[2..18], &mut found);
    history::history_step(
        s.depth, plane, s.stride, s.width, s.height, row, column, &found, steps, levels, index,
    )
}

// A block, a change, a withdrawal or a fold, by the command's number and the numbers of its line.
// Kept: a number, and any counts, as GLASS.md has this call; `Call` is what it means.
pub fn obey(
    command: u32,
    s: Screen,
    list: &[i32],
    plane: &mut [i32],
    steps: &mut [u32],
    levels: &mut [i32],
    index: &mut [u32],
) -> Answer
    requires { Obeyable s list.now plane.old steps.old index.old × CallFits (call_of command) s list.now }
    ensures { (result, lent plane.new steps.new levels.new index.new)
        ≡ obey_of (area_of s plane.old) (call_of command) s.depth list.now (lent plane.old steps.old levels.old index.old) }
{
    match Call::from(command) {
        Call::Block => redraw(s, list, plane, steps, levels, index),
        Call::Change => change(s, list, plane, steps, levels, index),
        Call::Withdraw => {
            let number = natural(list[0]) as u32;
            history::history_withdraw(
                plane, s.stride, s.width, s.height, number, steps, levels, index,
            )
        }
        Call::Fold => folding_code::history_fold(
            plane, s.stride, s.width, s.height, steps, levels, index,
        ),
    }
}

// The newest step that remains, taken back. It is never refused.
pub fn undo(s: Screen, plane: &mut [i32], steps: &mut [u32], levels: &mut [i32], index: &mut [u32])
    requires { Past (area_of s plane.old) (lent plane.old steps.old levels.old index.old) × (0 < count steps.old) }
    ensures { (done, lent plane.new steps.new levels.new index.new)
        ≡ undo_of (area_of s plane.old) (lent plane.old steps.old levels.old index.old) }
{
    let r = history::history_undo(plane, s.stride, s.width, s.height, steps, levels, index);
    prove!(r.number == 0);
}
