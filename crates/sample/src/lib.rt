// A kind of book of another crate, to show what a new kind needs: its meaning, the laws of the trait, and the answer.
#![tactic(auto)]

ghost use Rattle.std.specs.Prelude.{◌≡◌, ◌≤◌, min};
ghost use Rattle.book.specs.Worths.{added, top};
ghost use Rattle.sample.specs.Flat.{flat, flat-sound};

use book::{Book, Sum, TOP};
use common::{Expected, MOST};

mod constant;
#[cfg(test)]
mod file_tests;
mod hand;
#[cfg(test)]
mod history_tests;
mod lines;
mod slack;
mod stored;
#[cfg(test)]
mod tests;
mod trials;

pub use constant::{best_of_three, made, none_of_two};
pub use hand::by_hand;
pub use lines::hard_task;
pub use slack::sooner;
pub use stored::store;
pub use trials::{choices, gain, reaches, total_or_refusal, total_with};

// Every task is worth the same up to a time, and then nothing.
#[derive(Clone, Copy, Debug)]
pub struct FlatBook {
    worth: u32,
    until: u32,
    ghost low: { worth ≤ top },
}

impl FlatBook {
    // A worth above the top counts as the top.
    pub fn new(worth: u32, until: u32) -> FlatBook
        ensures worth { result.worth ≡ min worth top }
        ensures until { result.until ≡ until }
    {
        FlatBook {
            worth: worth.min(TOP),
            until,
        }
    }
}

impl Book for FlatBook {
    ghost meaning = { λ x. flat x.worth x.until };

    ghost sound = { λ x. flat-sound x.worth x.until x.low };

    fn worth(&self, task: u8, at: Expected) -> u32 {
        if task < MOST && at.0 <= self.until {
            self.worth
        } else {
            0
        }
    }
}

// Beside a book of any other kind, it is asked like any book.
pub fn beside<B: Book + Copy>(book: FlatBook, other: &B, task: u8, at: Expected) -> u32
    ensures { result ≡ added (flat book.worth book.until) (B.meaning other.now) task at.0 }
{
    let sum = Sum {
        first: book,
        second: *other,
    };
    sum.worth(task, at)
}
