// What may come next after the tasks of a set, and what is left to earn then.
ghost use Rattle.std.specs.Prelude.{◌≡◌, ◌↔◌, ℕ, ◌+◌, ◌^◌, ◌≤◌, ◌<◌, IsTrue, if◌then◌else◌, length};
ghost use Rattle.common.specs.Sets.{has};
ghost use Rattle.plan.specs.Next.{FilledFrom, May, Next};
ghost use Rattle.sheet.specs.Sheets.{table};
ghost use Rattle.sheet.specs.Tables.{expected_of, is_soft, load_of, maximum_of};
ghost use Rattle.sheet.specs.declared.table.Kind.TheVariants.{Hard};

use book::Book;
use common::{Expected, TaskSet};
use sheet::{Kind, Load, Sheet, Task};

// Where a task may start: some tasks of the sheet have run, and took that long.
#[derive(Clone, Copy)]
pub(crate) struct Start<'a> {
    sheet: &'a Sheet,
    set: TaskSet,
    load: Load,
    ghost expected: { load.expected.0 ≡ load_of expected_of (table sheet.now) (has set.0) },
    ghost maximum: { load.maximum.0 ≡ load_of maximum_of (table sheet.now) (has set.0) },
}

impl<'a> Start<'a> {
    pub(crate) fn after(sheet: &'a Sheet, set: TaskSet) -> Start<'a>
        ensures sheet { result.sheet.now ≡ sheet.now }
        ensures set { result.set ≡ set }
    {
        let load = sheet.loads(set);
        Start { sheet, set, load }
    }

    // Whether the task ends in time, if it is hard: only then is its end worked out.
    fn in_time(&self, task: &Task) -> bool
        requires { self.now.load.maximum.0 + maximum_of task.now < 2 ^ 32 }
        ensures { IsTrue result ↔ ((d : ℕ) → task.now.kind ≡ Hard d → self.now.load.maximum.0 + maximum_of task.now ≤ d) }
    {
        let Some(deadline) = task.kind.deadline() else {
            return true;
        };
        self.load.maximum.plus(task.maximum()).meets(deadline)
    }

    // Whether task t may come next.
    fn allows(&self, t: u8) -> bool
        requires task { t < length (table self.now.sheet.now) }
        ensures { IsTrue result ↔ May (table self.now.sheet.now) self.now.set.0 t }
    {
        if self.set.contains(t) {
            return false;
        }
        let task = &self.sheet.tasks()[usize::from(t)];
        task.before.within(self.set) && self.in_time(task)
    }

    // One more than the most that is left to earn where task t comes next; 0 where no order goes on with it.
    pub(crate) fn next<B: Book>(&self, book: &B, cells: &[u32], t: u8) -> u32
        requires task { t < length (table self.now.sheet.now) }
        requires room { 2 ^ length (table self.now.sheet.now) ≤ length cells.now }
        requires set { self.now.set.0 < 2 ^ length (table self.now.sheet.now) }
        requires filled { FilledFrom (B.meaning book.now) (table self.now.sheet.now) (self.now.set.0 + 1) cells.now }
        ensures { Next (B.meaning book.now) (table self.now.sheet.now) self.now.set.0 t result }
    {
        if !self.allows(t) {
            return 0;
        }
        let rest = cells[self.set.with(t).index()];
        if rest == 0 {
            return 0;
        }
        let task = &self.sheet.tasks()[usize::from(t)];
        rest + earns(book, t, task.kind, self.load.expected.plus(task.expected()))
    }
}

// What task t earns if it ends at this time: nothing unless it is soft.
pub fn earns<B: Book>(book: &B, t: u8, kind: Kind, at: Expected) -> u32
    ensures { result ≡ (if is_soft kind then B.meaning book.now t at.0 else 0) }
{
    if kind == Kind::Soft {
        book.worth(t, at)
    } else {
        0
    }
}
