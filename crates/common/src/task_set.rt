// A set of task numbers as a bit mask: bit t is set where t is a member.
ghost use Rattle.std.specs.Prelude.{◌≡◌, ◌↔◌, IsTrue, true, false, not, ◌&&◌, ◌||◌, ℕ, nat_lt, MatchOption, count_ones, if◌then◌else◌, ◌==◌};
ghost use Rattle.std.specs.Cmp.Rules.{comparing};
ghost use Rattle.std.proofs.Common.{rules};
ghost use Rattle.common.specs.Sets.{has, adding, removing, Lowest};

use crate::exact::Exact;

// A task number is below this.
pub const MOST: u8 = 16;

#[derive(Clone, Copy, Debug, PartialEq, Eq)]
pub struct TaskSet(u16);

#[tactic(auto, using(crate::proofs::Sets::members))]
impl TaskSet {
    pub const EMPTY: TaskSet = TaskSet(0);

    pub fn contains(self, t: u8) -> bool
        ensures { result ≡ has self.0 t }
    {
        t < MOST && (self.0 >> t) & 1 == 1
    }

    // A number above 15 is left out.
    pub fn with(self, t: u8) -> TaskSet
        ensures value { result.0 ≡ (if nat_lt t 16 then adding self.0 t else self.0) }
        ensures members { (u : ℕ) → has result.0 u ≡ (has self.0 u || (nat_lt t 16 && u == t)) }
    {
        if t >= MOST {
            return self;
        }
        TaskSet(self.0 | 1 << t)
    }

    pub fn without(self, t: u8) -> TaskSet
        ensures value { result.0 ≡ removing self.0 t }
        ensures members { (u : ℕ) → has result.0 u ≡ (has self.0 u && not (u == t)) }
    {
        if t >= MOST {
            return self;
        }
        TaskSet(self.0 & !(1 << t))
    }

    // The members of both sets.
    pub fn joined(self, other: TaskSet) -> TaskSet
        ensures { (u : ℕ) → has result.0 u ≡ (has self.0 u || has other.0 u) }
    {
        TaskSet(self.0 | other.0)
    }

    // Whether each member is in the other set too.
    pub fn within(self, other: TaskSet) -> bool
        ensures { IsTrue result ↔ ((u : ℕ) → has self.0 u ≡ true → has other.0 u ≡ true) }
    {
        self.0 & other.0 == self.0
    }

    // The set's number, which has bit t set for each member t.
    pub fn index(self) -> usize
        ensures { result ≡ self.0 }
    {
        usize::from(self.0)
    }

    pub fn len(self) -> u32
        ensures { result ≡ count_ones self.0 }
    {
        self.0.count_ones()
    }

    // The least member.
    pub fn lowest(self) -> Option<u8>
        ensures { MatchOption result ((u : ℕ) → has self.0 u ≡ false) (Lowest self.0) }
    {
        if self.0 == 0 {
            return None;
        }
        // At most 15: the cast is proved to keep it.
        Some(self.0.trailing_zeros() as u8)
    }
}

// The set that has the number.
impl From<u16> for TaskSet {
    ghost from_gives = { λ number set. set.0 ≡ number };

    fn from(number: u16) -> TaskSet {
        TaskSet(number)
    }
}

impl Exact for TaskSet {
    ghost exact = { Prim.search (comparing, rules) };
}
