// Books over books.
ghost use Rattle.std.specs.Prelude.{◌≡◌, ◌≤◌, set, IfErr, IfOk};
ghost use Rattle.book.specs.Lists.{weights_in};
ghost use Rattle.book.specs.Weights.{Reweighed, WeightFits, all_one, weight_of, weight_rows};
ghost use Rattle.book.specs.Worths.{added, weighed};
ghost use Rattle.book.specs.WorthLaws.{added-sound, weighed-sound};
ghost use Rattle.common.specs.Refusals.{Answered, outcome};

use crate::book::{Book, TOP};
use crate::weights::Weights;
use common::{Expected, Refusal};

// The worths of two books added, and the top where that is less.
#[derive(Clone, Copy, Debug, PartialEq, Eq)]
pub struct Sum<A, B> {
    pub first: A,
    pub second: B,
}

// The worth of a book times the task's weight, and the top where that is less.
#[derive(Clone, Copy, Debug, PartialEq, Eq)]
pub struct Weighted<B> {
    pub inner: B,
    weights: Weights,
}

impl<B> Weighted<B> {
    // The book with every weight 1.
    pub fn over(inner: B) -> Weighted<B>
        ensures inner { result.inner ≡ inner }
        ensures weights { weights_in result ≡ all_one }
    {
        Weighted {
            inner,
            weights: Weights::new(),
        }
    }

    // The weight of the task; 1 for a number above 15.
    pub fn weight_of(&self, t: u8) -> u32
        ensures value { result ≡ weight_of (weights_in self.now) t }
        ensures some { 1 ≤ result }
        ensures light { result ≤ 16 }
    {
        self.weights.of(t)
    }

    // Sets the weight of the task, from 1 to 16.
    pub fn weight(&mut self, t: u8, weight: u32) -> Result<(), Refusal>
        ensures answers { Answered (weight_rows t weight) (set (weights_in self.old) t weight)
            (weights_in self.old) (weights_in self.new) (outcome result) }
        ensures means { Reweighed (weights_in self.old) (weights_in self.new) t weight (outcome result) }
        ensures inner { self.new.inner ≡ self.old.inner }
        ensures within { IfOk result (λ _. WeightFits t weight) }
        ensures kept { IfErr result (λ _. self.new ≡ self.old) }
    {
        self.weights.put(t, weight)
    }
}

impl<A: Book, B: Book> Book for Sum<A, B> {
    ghost meaning = { λ x. added (A.meaning x.first) (B.meaning x.second) };

    ghost sound = { λ x. added-sound (A.sound x.first) (B.sound x.second) };

    fn worth(&self, task: u8, at: Expected) -> u32
        ensures { result ≡ added (A.meaning self.now.first) (B.meaning self.now.second) task at.0 }
    {
        let sum = self.first.worth(task, at) + self.second.worth(task, at);
        sum.min(TOP)
    }
}

impl<B: Book> Book for Weighted<B> {
    ghost meaning = { λ x. weighed (weight_of (weights_in x)) (B.meaning x.inner) };

    ghost sound = { λ x. weighed-sound (weight_of (weights_in x)) (B.sound x.inner) };

    fn worth(&self, task: u8, at: Expected) -> u32
        ensures { result ≡ weighed (weight_of (weights_in self.now)) (B.meaning self.now.inner) task at.0 }
    {
        let product = self.weights.of(task) * self.inner.worth(task, at);
        product.min(TOP)
    }
}
