// What every layer uses: ticks, sets of task numbers, the choice of the best, and refusals.
#![tactic(auto)]

mod choice;
mod exact;
mod fraction;
mod refusal;
mod task_set;
mod ticks;

pub use choice::{Rank, first_best, first_present};
pub use exact::{Exact, same};
pub use fraction::Fraction;
pub use refusal::Refusal;
pub use task_set::{MOST, TaskSet};
pub use ticks::{AtExpected, AtMaximum, Expected, LATEST, Margin, Maximum, Ticks};
