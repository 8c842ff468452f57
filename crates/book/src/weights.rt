// A weight for each task.
ghost use Rattle.std.specs.Prelude.{◌≡◌, ℕ, ◌≤◌, length, set, IfErr, IfOk};
ghost use Rattle.book.specs.Weights.{Reweighed, WeightFits, all_one, weight_of, weight_rows};
ghost use Rattle.common.specs.Refusals.{Answered, outcome};

use crate::place::place;
use common::Refusal;

const HEAVIEST: u32 = 16;

// From 1 to 16.
#[derive(Clone, Copy, Debug, PartialEq, Eq)]
pub struct Weights {
    list: [u8; 16],
    ghost whole: { length list ≡ 16 },
    ghost some: { (k : ℕ) → 1 ≤ weight_of list k },
    ghost light: { (k : ℕ) → weight_of list k ≤ 16 },
}

impl Weights {
    ghost use Rattle.book.specs.Lists.{weight_list};

    // Every weight is 1.
    pub(crate) fn new() -> Weights
        ensures { weight_list result ≡ all_one }
    {
        Weights { list: [1; 16] }
    }

    // The weight of the task; 1 for a number above 15.
    pub(crate) fn of(&self, t: u8) -> u32
        ensures value { result ≡ weight_of (weight_list self.now) t }
        ensures some { 1 ≤ result }
        ensures light { result ≤ 16 }
    {
        self.list.get(usize::from(t)).copied().map_or(1, u32::from)
    }

    #[tactic(auto, using(common::proofs::Refusals::fitting))]
    pub(crate) fn put(&mut self, t: u8, weight: u32) -> Result<(), Refusal>
        ensures answers { Answered (weight_rows t weight) (set (weight_list self.old) t weight)
            (weight_list self.old) (weight_list self.new) (outcome result) }
        ensures means { Reweighed (weight_list self.old) (weight_list self.new) t weight (outcome result) }
        ensures within { IfOk result (λ _. WeightFits t weight) }
        ensures kept { IfErr result (λ _. self.new ≡ self.old) }
    {
        let k = place(t)?;
        if !(1..=HEAVIEST).contains(&weight) {
            return Err(Refusal::BookRule);
        }
        // At most 16: the cast is proved to keep it.
        self.list[k] = weight as u8;
        Ok(())
    }
}
