// The up-set of a task: t with the up-sets of all tasks linked to t.
ghost use Rattle.std.specs.Prelude.{◌≡◌, ◌==◌, false, ◌&&◌, ◌||◌, ◌⊎◌, ◌↔◌, ℕ, ◌<◌, IfOk, IsTrue, length};
ghost use Rattle.common.specs.Sets.{any, has};
ghost use Rattle.sheet.specs.Calls.{Asked};
ghost use Rattle.sheet.specs.Links.{Path, Closed, linked, up};
ghost use Rattle.sheet.specs.Sheets.{table};

use crate::sheet::Sheet;
use common::{Refusal, TaskSet};

impl Sheet {
    // `found` with the up-set of t. Only a task that has not been found is entered, and it is found from then on: so
    // each is entered at most once, however many paths lead to it.
    #[tactic(auto, using(crate::proofs::Ancestors::entering), unfolding(crate::specs::Links::linked))]
    pub(super) fn gather(&self, t: u8, found: TaskSet) -> TaskSet
        requires task { t < length (table self.now) }
        requires fresh { has found.0 t ≡ false }
        requires closed { Closed (table self.now) found.0 }
        ensures { (u : ℕ) → has result.0 u ≡ (has found.0 u || up (table self.now) u t) }
    {
        let before = self.table.at(t).before;
        let mut all = found;
        // Over the numbers: an iterator over a set's members, with its laws, would be no plainer.
        for p in 0..self.count() {
            if before.contains(p) && !all.contains(p) {
                all = self.gather(p, all);
            }
        }
        all.with(t)
    }

    // The up-set of task t: t with the up-sets of all tasks linked to t. A task is in it where it is t or a path leads from it to t.
    #[tactic(auto, using(crate::proofs::Ancestors::climbing))]
    pub fn up_set(&self, t: u8) -> Result<TaskSet, Refusal>
        ensures gives { Asked (table self.now) t (λ s. (u : ℕ) → has s.0 u ≡ up (table self.now) u t) result }
        ensures descends { let sheet = table self.now in (u : ℕ) →
            up sheet u t ≡ (u == t || any (length sheet) (λ p. linked sheet p t && up sheet u p)) }
        ensures paths { IfOk result (λ s. (u : ℕ) → IsTrue (has s.0 u) ↔ ((u ≡ t) ⊎ Path (table self.now) u t)) }
    {
        self.get(t)?;
        Ok(self.gather(t, TaskSet::EMPTY))
    }
}
