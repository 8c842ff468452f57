// The figures of a row under a book.
ghost use Rattle.std.specs.Prelude.{◌≡◌, ◌<◌, length};
ghost use Rattle.sheet.specs.Sheets.{table};

use crate::open::OpenRow;
use book::Book;
use common::{Expected, Maximum, TaskSet};
use plan::earns;
use sheet::{Load, Sheet};

// Which tasks have run, how long they took together, and what they have earned.
#[derive(Clone, Copy, Debug, PartialEq, Eq)]
pub struct Tally {
    pub placed: TaskSet,
    pub load: Load,
    pub total: u32,
}

impl Tally {
    ghost use Rattle.row.specs.Rows.{Leads};
    ghost use Rattle.row.specs.Tallies.{Adds, Tells};

    // With task t right after what has run.
    pub(crate) fn with<B: Book>(self, sheet: &Sheet, book: &B, t: u8) -> Tally
        requires { t < length (table sheet.now) }
        ensures { Adds (B.meaning book.now) (table sheet.now) t self result }
    {
        let task = &sheet.tasks()[usize::from(t)];
        let load = Load {
            expected: self.load.expected.plus(task.expected()),
            maximum: self.load.maximum.plus(task.maximum()),
        };
        let earned = earns(book, t, task.kind, load.expected);
        Tally {
            placed: self.placed.with(t),
            load,
            total: self.total.saturating_add(earned),
        }
    }

    // Of tasks that run one after another from time 0.
    pub(crate) fn of<B: Book>(sheet: &Sheet, book: &B, order: &[u8]) -> Tally
        requires { Leads (table sheet.now) order.now }
        ensures { Tells (B.meaning book.now) (table sheet.now) order.now result }
    {
        let mut tally = Tally {
            placed: TaskSet::EMPTY,
            load: Load {
                expected: Expected::from(0),
                maximum: Maximum::from(0),
            },
            total: 0,
        };
        for t in order {
            tally = tally.with(sheet, book, *t);
        }
        tally
    }
}

impl OpenRow {
    ghost use Rattle.std.specs.Prelude.{ℕ, nat_lt};
    ghost use Rattle.common.specs.Sets.{has};
    ghost use Rattle.plan.specs.Orders.{times};
    ghost use Rattle.row.specs.Laid.{laid, open_sheet};
    ghost use Rattle.row.specs.Tallies.{Tells};

    // The figures of the row.
    #[tactic(auto, using(crate::proofs::Laying::set_has))]
    pub fn tally<B: Book>(&self, book: &B) -> Tally
        ensures tells { Tells (B.meaning book.now) (table (open_sheet self.now)) (laid self.now) result }
        ensures members { (k : ℕ) → has result.placed.0 k ≡ nat_lt 0 (times k (laid self.now)) }
    {
        Tally::of(&self.sheet, book, self.order())
    }
}
