// The range of what fits a number of bits, at most 20: the lowest and the highest.
ghost use Rattle.std.specs.Prelude.{◌≡◌, ◌^◌, ◌≤◌, true, false, nat_abs, length, MatchResult};
ghost use Rattle.answers.specs.declared.Reason.TheVariants.{Between};
ghost use Rattle.whole.specs.Numbers.{in_range};
ghost use Rattle.ranges.specs.Cells.{Finds};
ghost use Rattle.av1.specs.Calls.{low, high, number_ok};

use answers::Reason;

#[derive(Clone, Copy, Debug, PartialEq, Eq)]
pub struct Ends {
    pub lo: i32,
    pub hi: i32,
    ghost small: { (nat_abs lo ≤ 2 ^ 19) × (nat_abs hi ≤ 2 ^ 19) },
}

impl Ends {
    // The range of what fits this many bits.
    pub fn of_bits(bits: u32) -> Self
        requires { (1 ≤ bits) × (bits ≤ 20) }
        ensures lo { result.lo ≡ low bits }
        ensures hi { result.hi ≡ high bits }
    {
        Ends {
            lo: ranges::low_end(bits - 1),
            hi: ranges::high_end(bits - 1),
        }
    }

    // The place of the first number outside it.
    pub fn find_bad(self, t: &[i32]) -> Option<usize>
        requires { length t.now ≤ 64 }
        ensures { Finds (number_ok self.lo self.hi t.now) (length t.now) result }
    {
        crate::first_bad(t, self.lo, self.hi)
    }

    // Refusal 15 of a number between the steps that lies outside it, at its place.
    pub(crate) fn between(self, z: i32, place: usize) -> Result<(), Reason>
        ensures { MatchResult result (λ u. in_range self.lo self.hi z ≡ true) (λ r. (in_range self.lo self.hi z ≡ false) × (r ≡ Between place)) }
    {
        if ranges::inside(z, self.lo, self.hi) {
            Ok(())
        } else {
            Err(Reason::Between(place))
        }
    }
}
