// Ticks of one microsecond. Ticks counted at expected durations and ticks counted at maximum durations are two types, and
// neither converts into the other: a worth is looked up at expected ticks only, a deadline is held against maximum ticks only.
ghost use Rattle.std.specs.Prelude.{◌≡◌, ◌+◌, ◌-◌, ◌^◌, min, nat_le, pos, ◌-ℤ◌, int_lt};
ghost use Rattle.std.proofs.Common.{rules};

use crate::choice::Rank;
use std::marker::PhantomData;

// Marks ticks counted at expected durations.
#[derive(Clone, Copy, Debug, PartialEq, Eq)]
pub struct AtExpected;

// Marks ticks counted at maximum durations.
#[derive(Clone, Copy, Debug, PartialEq, Eq)]
pub struct AtMaximum;

// Ticks counted at durations of one kind.
#[derive(Clone, Copy, Debug, PartialEq, Eq)]
pub struct Ticks<Durations>(pub u32, PhantomData<Durations>);

pub type Expected = Ticks<AtExpected>;

pub type Maximum = Ticks<AtMaximum>;

// No deadline is later, and no time that a curve names.
pub const LATEST: u32 = 1048575;

// What is left of a deadline; below 0 where it is missed.
#[derive(Clone, Copy, Debug, PartialEq, Eq)]
pub struct Margin(pub i64);

impl<Durations> Ticks<Durations> {
    // Both together; never past the largest 32-bit number.
    pub fn plus(self, other: Ticks<Durations>) -> Ticks<Durations>
        ensures { result.0 ≡ min (self.0 + other.0) (2 ^ 32 - 1) }
    {
        Ticks::from(self.0.saturating_add(other.0))
    }
}

impl<Durations> From<u32> for Ticks<Durations> {
    ghost from_gives = { λ count ticks. ticks.0 ≡ count };

    fn from(count: u32) -> Ticks<Durations> {
        Ticks(count, PhantomData)
    }
}

impl Maximum {
    // Whether what ends here ends by the deadline.
    pub fn meets(self, deadline: u32) -> bool
        ensures { result ≡ nat_le self.0 deadline }
    {
        self.0 <= deadline
    }

    // What is left of the deadline by what ends here.
    pub fn margin(self, deadline: u32) -> Margin
        ensures { result.0 ≡ pos deadline -ℤ pos self.0 }
    {
        Margin(i64::from(deadline) - i64::from(self.0))
    }
}

// The least margin is the best: the tightest.
impl Rank for Margin {
    ghost beats = { λ x y. int_lt x.0 y.0 };

    ghost ordered = { record { one_way = Prim.search rules; chain = Prim.search rules } };

    fn better(&self, other: &Margin) -> bool {
        self.0 < other.0
    }
}
