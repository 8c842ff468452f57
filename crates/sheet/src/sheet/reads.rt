// What a sheet holds.
ghost use Rattle.std.specs.Prelude.{◌≡◌, ◌⊎◌, ◌<◌, ◌≤◌, MatchResult, length};
ghost use Rattle.common.specs.Refusals.{number};
ghost use Rattle.common.specs.declared.refusal.Refusal.TheVariants.{UnknownTask};
ghost use Rattle.sheet.specs.Calls.{Asked};
ghost use Rattle.sheet.specs.Links.{linked};
ghost use Rattle.sheet.specs.Sheets.{table};
ghost use Rattle.sheet.specs.Tables.{task_of};

use crate::sheet::Sheet;
use crate::table::Task;
use common::Refusal;

impl Sheet {
    // How many tasks there are.
    pub fn count(&self) -> u8
        ensures counts { result ≡ length (table self.now) }
        ensures few { result ≤ 16 }
    {
        self.table.len()
    }

    // All tasks, by number.
    pub fn tasks(&self) -> &[Task]
        ensures { result.now ≡ table self.now }
    {
        self.table.tasks()
    }

    // Task t: its durations, its kind and its direct predecessors.
    pub fn get(&self, t: u8) -> Result<Task, Refusal>
        ensures { Asked (table self.now) t (λ x. x ≡ task_of (table self.now) t) result }
    {
        self.table
            .tasks()
            .get(usize::from(t))
            .copied()
            .ok_or(Refusal::UnknownTask)
    }

    // Whether there is a direct link from a to b.
    #[tactic(auto, unfolding(crate::specs::Links::linked))]
    pub fn linked(&self, a: u8, b: u8) -> Result<bool, Refusal>
        ensures { let t = table self.now in MatchResult result
            (λ yes. (a < length t) × (b < length t) × (yes ≡ linked t a b))
            (λ e. ((length t ≤ a) ⊎ (length t ≤ b)) × (number e ≡ number UnknownTask)) }
    {
        self.get(a)?;
        Ok(self.get(b)?.before.contains(a))
    }
}
