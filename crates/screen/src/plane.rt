// The samples of a screen: lines of stride, one after another, of which the first width are visible and the others are the pad.
ghost use Rattle.std.specs.Prelude.{◌≡◌, ◌*◌, ◌≤◌, ◌<◌, length, MatchOption};
ghost use Rattle.whole.specs.Sums.{tab};
ghost use Rattle.screen.specs.Planes.{fresh_of, marked, stands_of, block_stands, block_of, drawn_of, Differ};
ghost use Rattle.screen.specs.Planes.{natural as Planes·natural};

use crate::Screen;
use answers::Answer;

// A number that is not below 0; 0 for one that is.
pub fn natural(z: i32) -> usize
    ensures value { result ≡ Planes·natural z }
    ensures small { result ≤ 2147483647 }
{
    z.max(0) as usize
}

// The first index at which two planes differ.
pub fn first_difference(a: &[i32], b: &[i32]) -> Option<usize>
    requires { length a.now ≡ length b.now }
    ensures { MatchOption result (Differ (length a.now) a.now b.now) (λ k. (k < length a.now) × Differ k a.now b.now) }
{
    for (i, x) in a.iter().enumerate() {
        if *x != b[i] {
            return Some(i);
        }
    }
    None
}

impl Screen {
    // The sample i of a new plane whose visible ones are z: in the pad it is the mark of another unit.
    fn fresh(self, i: usize, z: i32) -> i32
        requires { 0 < self.stride }
        ensures { result ≡ fresh_of self.stride self.width z i }
    {
        if self.width <= i % self.stride {
            return (i % 256) as i32;
        }
        z
    }

    // A new plane.
    pub fn blank(self, list: &mut [i32], z: i32)
        requires { 0 < self.stride }
        ensures { list.new ≡ tab (length list.old) (fresh_of self.stride self.width z) }
    {
        for (i, x) in list.iter_mut().enumerate() {
            *x = self.fresh(i, z);
        }
    }

    // The first index at which the pad hasn't the mark that it had at the start.
    pub fn first_touched(self, list: &[i32]) -> Option<usize>
        requires { 0 < self.stride }
        ensures { MatchOption result (Differ (length list.now) list.now (marked self.stride self.width list.now))
            (λ k. (k < length list.now) × Differ k list.now (marked self.stride self.width list.now)) }
    {
        for (i, x) in list.iter().enumerate() {
            let z = *x;
            if z != self.fresh(i, z) {
                return Some(i);
            }
        }
        None
    }

    // Whether a block of w by h stands on the screen.
    pub fn stands(self, row: usize, column: usize, w: usize, h: usize) -> bool
        ensures { result ≡ stands_of self.width self.height row column w h }
    {
        let width = self.width;
        let height = self.height;
        if width < w {
            return false;
        }
        if width - w < column {
            return false;
        }
        if height < h {
            return false;
        }
        row <= height - h
    }

    // Whether a block of that size number stands on the screen.
    fn block_stands(self, row: usize, column: usize, tx: usize) -> bool
        ensures { result ≡ block_stands self.width self.height row column tx }
    {
        if 24 < tx {
            return false;
        }
        let size = tables::size::size_of(tx);
        self.stands(row, column, size.w, size.h)
    }

    // The residual of an AV2 block, added at a row and column. A block that leaves the screen is lent no sample, and so the call refuses it.
    pub fn add(
        self,
        plane: &mut [i32],
        row: usize,
        column: usize,
        coeff: &[i32],
        txtp: usize,
        tx: usize,
    ) -> Answer
        requires { (length plane.old ≡ self.stride * self.height) × (self.width ≤ self.stride) }
        ensures { (result, plane.new) ≡ block_of plane.old self.stride self.width self.height row column coeff.now txtp tx self.depth }
    {
        if self.block_stands(row, column, tx) {
            let start = row * self.stride + column;
            return pixels::inv_txfm_add(
                &mut plane[start..],
                self.stride,
                coeff,
                txtp,
                tx,
                self.depth,
            );
        }
        pixels::inv_txfm_add(&mut plane[..0], self.stride, coeff, txtp, tx, self.depth)
    }

    // An AV2 block on the screen: its row, its column, its size and type numbers and its coefficients, from a list of numbers.
    pub fn draw(self, list: &[i32], plane: &mut [i32]) -> Answer
        requires { (length plane.old ≡ self.stride * self.height) × (self.width ≤ self.stride) × (4 ≤ length list.now) }
        ensures { (result, plane.new) ≡ drawn_of self.stride self.width self.height self.depth list.now plane.old }
    {
        let row = natural(list[0]);
        let column = natural(list[1]);
        let tx = natural(list[2]);
        let txtp = natural(list[3]);
        self.add(plane, row, column, &list[4..], txtp, tx)
    }
}
