// The standard book: ramps and steps added, and then weighed.
ghost use Rattle.std.specs.Prelude.{◌≡◌, ◌≤◌, ◌<◌, true, IfErr, IfOk};
ghost use Rattle.book.specs.Standard.{Called, Means, Within, contents, nothing, worth_of};
ghost use Rattle.book.specs.StandardLaws.{standard-sound};
ghost use Rattle.book.specs.Ramps.{RampFits, keeps_rule, ramp_of};
ghost use Rattle.book.specs.Steps.{StepFits, stepped, steps_of};
ghost use Rattle.book.specs.Weights.{WeightFits, weight_of};
ghost use Rattle.common.specs.Refusals.{outcome};

use crate::book::Book;
use crate::call::Call;
use crate::layers::{Sum, Weighted};
use crate::ramp::{Ramp, RampBook};
use crate::step::{Step, StepBook};
use common::{Exact, Expected, Refusal};

// Equal books are equal values.
#[derive(Clone, Copy, Debug, PartialEq, Eq)]
pub struct StandardBook {
    layers: Weighted<Sum<RampBook, StepBook>>,
}

impl StandardBook {
    // A book without curves, with every weight 1.
    pub fn new() -> StandardBook
        ensures { contents result ≡ nothing }
    {
        let curves = Sum {
            first: RampBook::new(),
            second: StepBook::new(),
        };
        StandardBook {
            layers: Weighted::over(curves),
        }
    }

    // The ramp of the task, if it has one.
    pub fn ramp_of(&self, t: u8) -> Option<Ramp>
        ensures value { result ≡ ramp_of (contents self.now).ramps t }
        ensures kept { keeps_rule result ≡ true }
    {
        self.layers.inner.first.ramp_of(t)
    }

    // The steps of the task, by their times.
    pub fn steps_of(&self, t: u8) -> &[Step]
        ensures value { result.now ≡ steps_of (contents self.now).steps t }
        ensures kept { stepped result.now ≡ true }
    {
        self.layers.inner.second.steps_of(t)
    }

    // The weight of the task; 1 for a number above 15.
    pub fn weight_of(&self, t: u8) -> u32
        ensures value { result ≡ weight_of (contents self.now).weights t }
        ensures some { 1 ≤ result }
        ensures light { result ≤ 16 }
    {
        self.layers.weight_of(t)
    }

    // Gives the task a ramp, in place of the one that it may have.
    pub fn ramp(&mut self, t: u8, peak: u32, knee: u32, foot: u32) -> Result<(), Refusal>
        ensures called { Called (contents self.old) (contents self.new) (Call.Ramp t peak knee foot) (outcome result) }
        ensures means { Means (contents self.old) (contents self.new) (Call.Ramp t peak knee foot) (outcome result) }
        ensures within { IfOk result (λ _. RampFits t peak knee foot) }
        ensures kept { IfErr result (λ _. self.new ≡ self.old) }
    {
        self.layers.inner.first.ramp(t, peak, knee, foot)
    }

    // Adds a step behind the last one of the task.
    pub fn step(&mut self, t: u8, until: u32, worth: u32) -> Result<(), Refusal>
        ensures called { Called (contents self.old) (contents self.new) (Call.Step t until worth) (outcome result) }
        ensures means { Means (contents self.old) (contents self.new) (Call.Step t until worth) (outcome result) }
        ensures within { IfOk result (λ _. StepFits (contents self.old).steps t until worth) }
        ensures kept { IfErr result (λ _. self.new ≡ self.old) }
    {
        self.layers.inner.second.step(t, until, worth)
    }

    // Takes all steps of the task away.
    pub fn drop_steps(&mut self, t: u8) -> Result<(), Refusal>
        ensures called { Called (contents self.old) (contents self.new) (Call.DropSteps t) (outcome result) }
        ensures means { Means (contents self.old) (contents self.new) (Call.DropSteps t) (outcome result) }
        ensures within { IfOk result (λ _. t < 16) }
        ensures kept { IfErr result (λ _. self.new ≡ self.old) }
    {
        self.layers.inner.second.drop_steps(t)
    }

    // Sets the weight of the task, from 1 to 16.
    pub fn weight(&mut self, t: u8, w: u32) -> Result<(), Refusal>
        ensures called { Called (contents self.old) (contents self.new) (Call.Weight t w) (outcome result) }
        ensures means { Means (contents self.old) (contents self.new) (Call.Weight t w) (outcome result) }
        ensures within { IfOk result (λ _. WeightFits t w) }
        ensures kept { IfErr result (λ _. self.new ≡ self.old) }
    {
        self.layers.weight(t, w)
    }

    // Makes the call.
    pub fn make(&mut self, call: Call) -> Result<(), Refusal>
        ensures called { Called (contents self.old) (contents self.new) call (outcome result) }
        ensures means { Means (contents self.old) (contents self.new) call (outcome result) }
        ensures within { IfOk result (λ _. Within (contents self.old) call) }
        ensures kept { IfErr result (λ _. self.new ≡ self.old) }
    {
        match call {
            Call::Ramp(t, peak, knee, foot) => self.ramp(t, peak, knee, foot),
            Call::Step(t, until, worth) => self.step(t, until, worth),
            Call::DropSteps(t) => self.drop_steps(t),
            Call::Weight(t, weight) => self.weight(t, weight),
        }
    }
}

impl Book for StandardBook {
    ghost meaning = { λ x. worth_of (contents x) };

    ghost sound = { standard-sound };

    fn worth(&self, task: u8, at: Expected) -> u32
        ensures { result ≡ worth_of (contents self.now) task at.0 }
    {
        self.layers.worth(task, at)
    }
}

impl Exact for StandardBook {
    ghost use Rattle.book.specs.EqualLaws.{standard_books_exact};

    ghost exact = { standard_books_exact };
}
