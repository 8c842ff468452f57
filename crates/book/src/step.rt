// A book of steps.
ghost use Rattle.std.specs.Prelude.{◌≡◌, true, [], ◌∷◌, ◌++◌, ◌<◌, ◌≤◌, find, length, nat_le, ◌-◌, drop, replicate, take, IfErr, IfOk};
ghost use Rattle.std.specs.Cmp.Rules.{comparing};
ghost use Rattle.std.proofs.Common.{rules};
ghost use Rattle.book.specs.Steps.{Dropped, StepFits, Stepped, blank, drop_rows, no_steps};
ghost use Rattle.book.specs.Steps.{step_added, step_meaning, step_rows, stepped, steps_dropped, steps_of, steps_worth};
ghost use Rattle.common.specs.Refusals.{Answered, outcome};

use crate::book::{Book, TOP};
use crate::place::place;
use common::{Exact, Expected, LATEST, Refusal};

const MOST_STEPS: u8 = 6;

// Up to a time, a worth.
#[derive(Clone, Copy, Debug, PartialEq, Eq)]
pub struct Step {
    pub until: u32,
    pub worth: u32,
}

// At most six steps: the first `len` places hold them, and the others are blank. Each step reaches further than the one before,
// and is worth no more. On the heap a book could not be `Copy`; with an `impl Model` a book that was passed by value could not be
// used again.
#[derive(Clone, Copy, Debug, PartialEq, Eq)]
pub struct Steps {
    len: u8,
    list: [Step; 6],
    ghost whole: { length list ≡ 6 },
    ghost few: { len ≤ 6 },
    ghost clear: { drop len list ≡ replicate (6 - len) blank },
    ghost sound: { stepped (take len list) ≡ true },
}

// At most six steps for each task.
#[derive(Clone, Copy, Debug, PartialEq, Eq)]
pub struct StepBook {
    steps: [Steps; 16],
    ghost whole: { length steps ≡ 16 },
}

impl Steps {
    ghost use Rattle.book.specs.Lists.{used};

    #[tactic(auto, unfolding(crate::specs::Steps::stepped))]
    fn new() -> Steps
        ensures { used result ≡ [] }
    {
        Steps {
            len: 0,
            list: [Step { until: 0, worth: 0 }; 6],
        }
    }

    fn used(&self) -> &[Step]
        ensures { result.now ≡ used self.now }
    {
        &self.list[0..usize::from(self.len)]
    }

    // The first step that reaches the time.
    fn reaching(&self, at: Expected) -> Option<Step>
        ensures { result ≡ find (λ s. nat_le at.0 s.until) (used self.now) }
    {
        self.used().iter().copied().find(|step| at.0 <= step.until)
    }

    // The worth of the first step that reaches the time, and 0 after the last.
    fn at(&self, at: Expected) -> u32
        ensures { result ≡ steps_worth (used self.now) at.0 }
    {
        self.reaching(at).map_or(0, |step| step.worth)
    }

    // Whether the steps keep their rule with this one at the end.
    #[tactic(auto, using(crate::proofs::Steps::stepped_end))]
    fn takes(&self, step: Step) -> bool
        ensures { result ≡ stepped (used self.now ++ step ∷ []) }
    {
        let last = self.used().last();
        step.until <= LATEST
            && step.worth <= TOP
            && last.is_none_or(|last| last.until < step.until && step.worth <= last.worth)
    }

    fn is_full(&self) -> bool
        ensures { result ≡ nat_le 6 (length (used self.now)) }
    {
        self.len >= MOST_STEPS
    }

    fn push(&mut self, step: Step)
        requires room { length (used self.old) < 6 }
        requires fits { stepped (used self.old ++ step ∷ []) ≡ true }
        ensures { used self.new ≡ used self.old ++ step ∷ [] }
    {
        self.list[usize::from(self.len)] = step;
        self.len += 1;
    }
}

impl StepBook {
    ghost use Rattle.book.specs.Lists.{steps_in};

    // A book without steps.
    pub fn new() -> StepBook
        ensures { steps_in result ≡ no_steps }
    {
        StepBook {
            steps: [Steps::new(); 16],
        }
    }

    // The steps of the task, by their times.
    pub fn steps_of(&self, t: u8) -> &[Step]
        ensures value { result.now ≡ steps_of (steps_in self.now) t }
        ensures kept { stepped result.now ≡ true }
    {
        self.steps.get(usize::from(t)).map_or(&[], |own| own.used())
    }

    // Adds a step behind the last one of the task.
    #[tactic(auto, using(common::proofs::Refusals::fitting))]
    pub fn step(&mut self, t: u8, until: u32, worth: u32) -> Result<(), Refusal>
        ensures answers { Answered (step_rows (steps_in self.old) t until worth) (step_added (steps_in self.old) t until worth)
            (steps_in self.old) (steps_in self.new) (outcome result) }
        ensures means { Stepped (steps_in self.old) (steps_in self.new) t until worth (outcome result) }
        ensures within { IfOk result (λ _. StepFits (steps_in self.old) t until worth) }
        ensures kept { IfErr result (λ _. self.new ≡ self.old) }
    {
        let k = place(t)?;
        let step = Step { until, worth };
        let mut own = self.steps[k];
        if !own.takes(step) {
            return Err(Refusal::BookRule);
        }
        if own.is_full() {
            return Err(Refusal::StepsFull);
        }
        own.push(step);
        self.steps[k] = own;
        Ok(())
    }

    // Takes all steps of the task away.
    #[tactic(auto, using(common::proofs::Refusals::fitting))]
    pub fn drop_steps(&mut self, t: u8) -> Result<(), Refusal>
        ensures answers { Answered (drop_rows t) (steps_dropped (steps_in self.old) t)
            (steps_in self.old) (steps_in self.new) (outcome result) }
        ensures means { Dropped (steps_in self.old) (steps_in self.new) t (outcome result) }
        ensures within { IfOk result (λ _. t < 16) }
        ensures kept { IfErr result (λ _. self.new ≡ self.old) }
    {
        let k = place(t)?;
        self.steps[k] = Steps::new();
        Ok(())
    }
}

impl Book for StepBook {
    ghost use Rattle.book.specs.Lists.{steps_in};
    ghost use Rattle.book.specs.StepLaws.{steps-sound};

    ghost meaning = { λ x. step_meaning (steps_in x) };

    ghost sound = { steps-sound };

    fn worth(&self, task: u8, at: Expected) -> u32
        ensures { result ≡ step_meaning (steps_in self.now) task at.0 }
    {
        self.steps
            .get(usize::from(task))
            .map_or(0, |own| own.at(at))
    }
}

impl Exact for Step {
    ghost exact = { Prim.search (comparing, rules) };
}

impl Exact for StepBook {
    ghost use Rattle.book.specs.EqualLaws.{step_books_exact};

    ghost exact = { step_books_exact };
}
