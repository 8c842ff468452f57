// Fractions, of which the greatest is the best.
ghost use Rattle.std.specs.Prelude.{◌≡◌, ◌*◌, ◌<◌, nat_lt, MatchOption};
ghost use Rattle.common.specs.RankLaws.{fractions-ordered};

use crate::choice::Rank;

#[derive(Clone, Copy, Debug)]
pub struct Fraction {
    num: u32,
    den: u32,
    ghost whole: { 0 < den },
}

impl Fraction {
    // None where the denominator is 0.
    pub fn new(num: u32, den: u32) -> Option<Fraction>
        ensures { MatchOption result (den ≡ 0) (λ f. (f.num ≡ num) × (f.den ≡ den)) }
    {
        if den == 0 {
            return None;
        }
        Some(Fraction { num, den })
    }
}

// Compared exactly, by cross products: 64 bits hold them.
impl Rank for Fraction {
    ghost beats = { λ x y. nat_lt (y.num * x.den) (x.num * y.den) };

    ghost ordered = { fractions-ordered (λ f. f.num) (λ f. f.den) (λ f. f.whole) };

    fn better(&self, other: &Fraction) -> bool {
        u64::from(other.num) * u64::from(self.den) < u64::from(self.num) * u64::from(other.den)
    }
}
