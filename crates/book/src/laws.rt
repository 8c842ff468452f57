// What holds of every book.
ghost use Rattle.std.specs.Prelude.{◌≡◌, ℕ, ◌+◌, ◌-◌, ◌*◌, ◌/◌, ◌^◌, ◌↔◌, min, IsTrue};
ghost use Rattle.book.specs.Lists.{ramps_in, steps_in, weights_in};
ghost use Rattle.book.specs.Ramps.{ramp_of, ramp_worth};
ghost use Rattle.book.specs.Standard.{Alike, Others_stay, contents, held};
ghost use Rattle.book.specs.Steps.{steps_of, steps_worth};
ghost use Rattle.book.specs.Weights.{weight_of};
ghost use Rattle.book.specs.Worths.{Layered, Meaning, Sound, latest, top};

use crate::book::{Book, TOP};
use crate::layers::{Sum, Weighted};
use crate::ramp::RampBook;
use crate::standard::StandardBook;
use crate::step::StepBook;
use common::{Expected, LATEST};

// A kind of book that states its meaning and shows the laws of the trait is sound.
pub fn kind_stands<B: Book>(book: &B)
    ensures { Sound (B.meaning book.now) }
{}

// In a ramp book a task is worth, at each time, what its ramp is worth then, and 0 without one.
pub fn ramps_mean(book: &RampBook)
    ensures { (task at : ℕ) → ⟦<RampBook as Book>⟧.meaning book.now task at ≡ ramp_worth (ramp_of (ramps_in book.now) task) at }
{}

// In a step book a task is worth, at each time, what its steps are worth then.
pub fn steps_mean(book: &StepBook)
    ensures { (task at : ℕ) → ⟦<StepBook as Book>⟧.meaning book.now task at ≡ steps_worth (steps_of (steps_in book.now) task) at }
{}

// In a sum a task is worth what it is worth in the two books together, and the top where that is less.
pub fn sum_means<A: Book, B: Book>(book: &Sum<A, B>)
    ensures { (task at : ℕ) → ⟦<Sum<A, B> as Book>⟧.meaning book.now task at ≡
        min top (A.meaning book.now.first task at + B.meaning book.now.second task at) }
{}

// Under a weight a task is worth what it is worth in the book below times its weight, and the top where that is less.
pub fn weighted_means<B: Book>(book: &Weighted<B>)
    ensures { (task at : ℕ) → ⟦<Weighted<B> as Book>⟧.meaning book.now task at ≡
        min top (weight_of (weights_in book.now) task * B.meaning book.now.inner task at) }
{}

// In a standard book a task is worth its ramp and its steps together, at most the top, times its weight, at most the top.
pub fn standard_means(book: &StandardBook)
    ensures { let c = contents book.now in (task at : ℕ) → ⟦<StandardBook as Book>⟧.meaning book.now task at ≡
        min top (weight_of c.weights task * min top (ramp_worth (ramp_of c.ramps task) at + steps_worth (steps_of c.steps task) at)) }
{}

// And so it is worth what it is in a weight over the sum of a ramp book and a step book that hold the same.
pub fn standard_is_layered(book: &StandardBook, layers: &Weighted<Sum<RampBook, StepBook>>)
    ensures { contents book.now ≡ held layers.now → (task at : ℕ) → ⟦<StandardBook as Book>⟧.meaning book.now task at ≡
        ⟦<Weighted<Sum<RampBook, StepBook>> as Book>⟧.meaning layers.now task at }
{}

// Whatever is layered over sound books, in any way, is sound.
#[tactic(auto, using(crate::specs::WorthLaws::layered_sound))]
pub fn layers_stand()
    ensures { (m : Meaning) → Layered m → Sound m }
{}

// A call on a standard book leaves what every other task is worth.
#[tactic(auto, using(crate::proofs::Others::others_stay))]
pub fn others_stay()
    ensures { Others_stay }
{}

// The worth at the last 32-bit time is answered as at any other.
pub fn last_worth<B: Book>(book: &B, task: u8) -> u32
    ensures { result ≡ B.meaning book.now task (2 ^ 32 - 1) }
{
    book.worth(task, Expected::from(u32::MAX))
}

// The worth where a ramp's product is the greatest, the highest peak times the ticks left at time 1 of the longest fall, which
// needs 64 bits; and that at the last 32-bit time, which is 0.
#[tactic(auto, unfolding(crate::specs::Ramps::slope))]
pub fn widest_product() -> (u32, u32)
    ensures { (result.0 ≡ top * (latest - 1) / latest) × (result.1 ≡ 0) }
{
    let mut book = RampBook::new();
    let _ = book.ramp(0, TOP, 0, LATEST);
    (book.worth(0, Expected::from(1)), last_worth(&book, 0))
}

// Step books with the same steps for each task are the same value: a step book holds nothing else.
#[tactic(auto, using(crate::proofs::Equality::same_steps))]
pub fn equal_steps(a: &StepBook, b: &StepBook)
    ensures { steps_in a.now ≡ steps_in b.now → a.now ≡ b.now }
{}

// Standard books that hold the same are the same value.
#[tactic(auto, using(crate::proofs::Equality::same_contents))]
pub fn equal_contents(a: &StandardBook, b: &StandardBook)
    ensures { contents a.now ≡ contents b.now → a.now ≡ b.now }
{}

// Equal books are the same value, and have the same curves and weights. A derived `==` has no clause of its own, so this says
// what it finds.
#[tactic(auto, using(crate::specs::EqualLaws::standard_books_exact, crate::proofs::Equality::standard_books_alike))]
pub fn equal_books(a: &StandardBook, b: &StandardBook) -> bool
    ensures same { IsTrue result ↔ (a.now ≡ b.now) }
    ensures alike { IsTrue result ↔ Alike (contents a.now) (contents b.now) }
{
    a == b
}
