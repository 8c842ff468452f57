// Trials of tasks on a tally, which end with the function, by an early return, by `?`, by `end`, and with the turn of a loop. The
// tally then stands as before. What they find is promised where the tally has the figures of the row.
ghost use Rattle.std.specs.Prelude.{◌≡◌, ◌↔◌, ◌+◌, ◌<◌, ◌≤◌, [], ◌∷◌, ◌++◌, ℕ, IsTrue, MatchResult};
ghost use Rattle.common.specs.Sets.{has};
ghost use Rattle.plan.specs.Totals.{total};
ghost use Rattle.row.specs.Laid.{laid, open_sheet};
ghost use Rattle.row.specs.Rows.{Judged, Leads};
ghost use Rattle.row.specs.Tallies.{Tells};
ghost use Rattle.row.specs.Trials.{figures_of, refusal_of};
ghost use Rattle.sample.specs.Trials.{TotalWith};
ghost use Rattle.sheet.specs.Sheets.{table};

use book::Book;
use common::{MOST, TaskSet};
use row::{OpenRow, Tally, Trial};

// The total with task t placed next, or as it is where that would be refused. The trial ends with the function.
pub fn total_with<B: Book>(row: &OpenRow, book: &B, tally: &mut Tally, t: u8) -> u32
    ensures total { Tells (B.meaning book.now) (table (open_sheet row.now)) (laid row.now) tally.old →
        TotalWith (B.meaning book.now) (table (open_sheet row.now)) (laid row.now) t result }
    ensures kept { tally.new ≡ tally.old }
{
    let with = row.trial(book, tally, t);
    with.tally().total
}

// Whether task t may be placed next and the total then reaches the goal. Where it may not, the trial ends by the early return.
pub fn reaches<B: Book>(row: &OpenRow, book: &B, tally: &mut Tally, t: u8, goal: u32) -> bool
    ensures reaches { Tells (B.meaning book.now) (table (open_sheet row.now)) (laid row.now) tally.old →
        IsTrue result ↔ (Leads (table (open_sheet row.now)) (laid row.now ++ t ∷ [])
        × (goal ≤ total (B.meaning book.now) (table (open_sheet row.now)) (laid row.now ++ t ∷ []))) }
    ensures kept { tally.new ≡ tally.old }
{
    let trial = row.trial(book, tally, t);
    if trial.refusal() > 0 {
        return false;
    }
    goal <= trial.tally().total
}

// The figures with the task, or the number with which placing it would be refused.
fn figures(trial: &Trial<'_>) -> Result<Tally, u8>
    ensures { MatchResult result (λ y. (refusal_of trial.now ≡ 0) × (y ≡ figures_of trial.now)) (λ n. (0 < n) × (n ≡ refusal_of trial.now)) }
{
    match trial.refusal() {
        0 => Ok(trial.tally()),
        n => Err(n),
    }
}

// The total with task t placed next, or the number with which that would be refused: there the trial ends by `?`.
pub fn total_or_refusal<B: Book>(
    row: &OpenRow,
    book: &B,
    tally: &mut Tally,
    t: u8,
) -> Result<u32, u8>
    ensures says { MatchResult result
        (λ v. Judged (table (open_sheet row.now)) (laid row.now) t 0
        × (Tells (B.meaning book.now) (table (open_sheet row.now)) (laid row.now) tally.old →
        v ≡ total (B.meaning book.now) (table (open_sheet row.now)) (laid row.now ++ t ∷ [])))
        (λ n. (0 < n) × Judged (table (open_sheet row.now)) (laid row.now) t n) }
    ensures kept { tally.new ≡ tally.old }
{
    let trial = row.trial(book, tally, t);
    let with = figures(&trial)?;
    Ok(with.total)
}

// What task t earns if it is placed next, and 0 where that would be refused. The trial ends before the tally is read.
pub fn gain<B: Book>(row: &OpenRow, book: &B, tally: &mut Tally, t: u8) -> u32
    ensures gain { Tells (B.meaning book.now) (table (open_sheet row.now)) (laid row.now) tally.old →
        TotalWith (B.meaning book.now) (table (open_sheet row.now)) (laid row.now) t (tally.old.total + result) }
    ensures kept { tally.new ≡ tally.old }
{
    let trial = row.trial(book, tally, t);
    let with = trial.tally().total;
    trial.end();
    with.saturating_sub(tally.total)
}

// The tasks that may be placed next. Each turn has a trial of its own, which ends with it.
pub fn choices<B: Book>(row: &OpenRow, book: &B, tally: &mut Tally) -> TaskSet
    ensures each { (k : ℕ) → IsTrue (has result.0 k) ↔ Leads (table (open_sheet row.now)) (laid row.now ++ k ∷ []) }
    ensures kept { tally.new ≡ tally.old }
{
    let mut choices = TaskSet::EMPTY;
    for t in 0..MOST {
        let trial = row.trial(book, tally, t);
        if trial.refusal() == 0 {
            choices = choices.with(t);
        }
    }
    choices
}
