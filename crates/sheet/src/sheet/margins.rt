// Margins: whether the deadlines can be met, and which of them is the tightest.
ghost use Rattle.std.specs.Prelude.{◌≡◌, ◌↔◌, ℕ, slice_index_or, length, MatchOption, IfOk, IsTrue, None};
ghost use Rattle.common.specs.Sets.{has};
ghost use Rattle.sheet.specs.Calls.{Asked};
ghost use Rattle.sheet.specs.Margins.{margin_of, Fits, Tightest};
ghost use Rattle.sheet.specs.Remaining.{pressing, margin_after, FitsAfter};
ghost use Rattle.sheet.specs.Sheets.{table};
ghost use Rattle.sheet.specs.Tables.{task_of};

use crate::sheet::Sheet;
use common::{Margin, Refusal, TaskSet, first_present};
use std::array;

impl Sheet {
    // What must have ended by the deadline where the tasks of `done` have: those, and the joined up-sets of all other hard tasks
    // whose deadline is at most this one.
    #[tactic(auto, using(crate::proofs::Ancestors::gathering), unfolding(crate::specs::Remaining::pressing))]
    fn pressing(&self, done: TaskSet, deadline: u32) -> TaskSet
        ensures { (u : ℕ) → has result.0 u ≡ pressing (table self.now) done.0 deadline u }
    {
        let mut all = TaskSet::EMPTY;
        for (h, task) in self.table.tasks().iter().enumerate() {
            // An index below 16: the cast is proved to keep it.
            let h = h as u8;
            if task.kind.due_by(deadline) && !done.contains(h) && !all.contains(h) {
                all = self.gather(h, all);
            }
        }
        all.joined(done)
    }

    // What is left of the deadline of task t where the tasks of `done` run first; absent where it is one of them, or isn't hard.
    #[tactic(auto, using(crate::proofs::Margins::left_is))]
    fn margin_after(&self, done: TaskSet, t: u8) -> Option<Margin>
        ensures { result ≡ margin_after (table self.now) done.0 t }
    {
        if done.contains(t) {
            return None;
        }
        let deadline = self.table.tasks().get(usize::from(t))?.kind.deadline()?;
        Some(self.load(self.pressing(done, deadline)).margin(deadline))
    }

    // What is left of the deadline of task t; absent where the task isn't hard.
    #[tactic(auto, using(crate::proofs::Margins::margin_none))]
    pub fn margin(&self, t: u8) -> Result<Option<Margin>, Refusal>
        ensures gives { Asked (table self.now) t (λ m. m ≡ margin_of (table self.now) t) result }
        ensures alike { IfOk result (λ m. (u : ℕ) →
            (task_of (table self.now) u).kind ≡ (task_of (table self.now) t).kind → margin_of (table self.now) u ≡ m) }
    {
        self.get(t)?;
        Ok(self.margin_after(TaskSet::EMPTY, t))
    }

    // The margin of each task.
    fn margins(&self) -> [Option<Margin>; 16]
        ensures whole { length result ≡ 16 }
        ensures each { (k : ℕ) → slice_index_or result k None ≡ margin_of (table self.now) k }
    {
        // An index below 16: the cast is proved to keep it.
        array::from_fn(|t| self.margin_after(TaskSet::EMPTY, t as u8))
    }

    // Whether no margin is below 0.
    pub fn fits(&self) -> bool
        ensures { IsTrue result ↔ Fits (table self.now) }
    {
        self.fits_after(TaskSet::EMPTY)
    }

    // Whether no margin is below 0 of what is left where the tasks of `done` run first.
    pub fn fits_after(&self, done: TaskSet) -> bool
        ensures fits { IsTrue result ↔ FitsAfter (table self.now) done.0 }
        ensures none_run { FitsAfter (table self.now) 0 ↔ Fits (table self.now) }
    {
        (0..self.count()).all(|t| self.margin_after(done, t).is_none_or(|left| left.0 >= 0))
    }

    // The hard task of least margin, the lowest-numbered of equals.
    pub fn tightest(&self) -> Option<u8>
        ensures { MatchOption result ((k : ℕ) → margin_of (table self.now) k ≡ None) (Tightest (table self.now)) }
    {
        let t = first_present(&self.margins())?;
        // An index below 16: the cast is proved to keep it.
        Some(t as u8)
    }
}
