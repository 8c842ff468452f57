// A row that has all tasks of its sheet.
ghost use Rattle.std.specs.Prelude.{◌≡◌, length, take};
ghost use Rattle.plan.specs.Orders.{Lawful};
ghost use Rattle.sheet.specs.Sheets.{table};

use crate::tally::Tally;
use book::Book;
use sheet::Sheet;

// The first places of `order` hold the tasks. They are a lawful order.
#[derive(Debug, Drop)]
pub struct FullRow {
    sheet: Sheet,
    order: [u8; 16],
    ghost whole: { length order ≡ 16 },
    ghost lawful: { ∥ Lawful (table sheet) (take (length (table sheet)) order) ∥₁ },
}

impl FullRow {
    ghost use Rattle.std.specs.Prelude.{ℕ, ◌≤◌};
    ghost use Rattle.plan.specs.Orders.{Order};
    ghost use Rattle.plan.specs.Totals.{Best, total};
    ghost use Rattle.row.specs.Laid.{full_sheet, order_of};

    pub(crate) fn new(sheet: Sheet, order: [u8; 16]) -> FullRow
        requires { Lawful (table sheet) (take (length (table sheet)) order) }
        ensures sheet { full_sheet result ≡ sheet }
        ensures order { result.order ≡ order }
    {
        FullRow { sheet, order }
    }

    // A copy of the row's sheet.
    pub fn sheet(&self) -> Sheet
        ensures { result ≡ full_sheet self.now }
    {
        self.sheet
    }

    // The tasks, the first to run first.
    pub fn order(&self) -> &[u8]
        ensures tasks { result.now ≡ order_of self.now }
        ensures lawful { Lawful (table (full_sheet self.now)) result.now }
    {
        &self.order[0..usize::from(self.sheet.count())]
    }

    // How many tasks there are.
    pub fn count(&self) -> u8
        ensures counts { result ≡ length (order_of self.now) }
        ensures tasks { result ≡ length (table (full_sheet self.now)) }
    {
        self.sheet.count()
    }

    // What the soft tasks earn under the book where every task takes as long as is expected.
    pub fn weigh<B: Book>(&self, book: &B) -> u32
        ensures total { result ≡ total (B.meaning book.now) (table (full_sheet self.now)) (order_of self.now) }
        ensures most { (best : Order) → Best (B.meaning book.now) (table (full_sheet self.now)) best →
            result ≤ total (B.meaning book.now) (table (full_sheet self.now)) best }
    {
        Tally::of(&self.sheet, book, self.order()).total
    }
}
