// A book of ramps.
ghost use Rattle.std.specs.Prelude.{◌≡◌, true, ℕ, length, IfErr, IfOk};
ghost use Rattle.std.specs.Cmp.Rules.{comparing};
ghost use Rattle.std.proofs.Common.{rules};
ghost use Rattle.book.specs.Ramps.{keeps_rule, no_ramps, ramp_meaning, ramp_of, ramp_rows};
ghost use Rattle.book.specs.Ramps.{RampFits, Ramped, ramped, slope, sloped};
ghost use Rattle.common.specs.Refusals.{Answered, outcome};

use crate::book::{Book, TOP};
use crate::place::place;
use common::{Exact, Expected, LATEST, Refusal};

// Worth the peak up to the knee, then in proportion to what is left to the foot, and nothing from the foot on.
#[derive(Clone, Copy, Debug, PartialEq, Eq)]
pub struct Ramp {
    pub peak: u32,
    pub knee: u32,
    pub foot: u32,
}

// At most one ramp for each task. The rule of ramps is the book's: with it in `Ramp`, a definition could not write down the
// ramp that a call sets.
#[derive(Clone, Copy, Debug, PartialEq, Eq)]
pub struct RampBook {
    ramps: [Option<Ramp>; 16],
    ghost whole: { length ramps ≡ 16 },
    ghost sound: { (k : ℕ) → keeps_rule (ramp_of ramps k) ≡ true },
}

impl Ramp {
    // The product of the peak and what is left to the foot needs 64 bits.
    #[tactic(auto, unfolding(crate::specs::Ramps::slope))]
    fn at(&self, at: Expected) -> u32
        requires { sloped self.now.peak self.now.knee self.now.foot ≡ true }
        ensures { result ≡ slope self.now.peak self.now.knee self.now.foot at.0 }
    {
        if at.0 <= self.knee {
            return self.peak;
        }
        if at.0 >= self.foot {
            return 0;
        }
        let left = u64::from(self.foot - at.0);
        let fall = u64::from(self.foot - self.knee);
        // At most the peak: the cast is proved to keep it.
        (u64::from(self.peak) * left / fall) as u32
    }
}

impl RampBook {
    ghost use Rattle.book.specs.Lists.{ramps_in};

    // A book without ramps.
    pub fn new() -> RampBook
        ensures { ramps_in result ≡ no_ramps }
    {
        RampBook { ramps: [None; 16] }
    }

    // The ramp of the task, if it has one.
    pub fn ramp_of(&self, t: u8) -> Option<Ramp>
        ensures value { result ≡ ramp_of (ramps_in self.now) t }
        ensures kept { keeps_rule result ≡ true }
    {
        self.ramps.get(usize::from(t)).copied().flatten()
    }

    // Gives the task a ramp, in place of the one that it may have.
    #[tactic(auto, using(common::proofs::Refusals::fitting))]
    pub fn ramp(&mut self, t: u8, peak: u32, knee: u32, foot: u32) -> Result<(), Refusal>
        ensures answers { Answered (ramp_rows t peak knee foot) (ramped (ramps_in self.old) t peak knee foot)
            (ramps_in self.old) (ramps_in self.new) (outcome result) }
        ensures means { Ramped (ramps_in self.old) (ramps_in self.new) t peak knee foot (outcome result) }
        ensures within { IfOk result (λ _. RampFits t peak knee foot) }
        ensures kept { IfErr result (λ _. self.new ≡ self.old) }
    {
        let k = place(t)?;
        if peak > TOP || knee >= foot || foot > LATEST {
            return Err(Refusal::BookRule);
        }
        self.ramps[k] = Some(Ramp { peak, knee, foot });
        Ok(())
    }
}

impl Book for RampBook {
    ghost use Rattle.book.specs.Lists.{ramps_in};
    ghost use Rattle.book.specs.RampLaws.{ramps-sound};

    ghost meaning = { λ x. ramp_meaning (ramps_in x) };

    ghost sound = { ramps-sound };

    fn worth(&self, task: u8, at: Expected) -> u32
        ensures { result ≡ ramp_meaning (ramps_in self.now) task at.0 }
    {
        let Some(Some(ramp)) = self.ramps.get(usize::from(task)) else {
            return 0;
        };
        ramp.at(at)
    }
}

impl Exact for Ramp {
    ghost exact = { Prim.search (comparing, rules) };
}

impl Exact for RampBook {
    ghost use Rattle.book.specs.EqualLaws.{ramp_books_exact};

    ghost exact = { ramp_books_exact };
}
