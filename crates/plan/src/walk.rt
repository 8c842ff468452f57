// The walk along the cells that finds the first of the best orders.
ghost use Rattle.std.specs.Prelude.{◌+◌, ◌^◌, ◌≤◌, ◌<◌, length, slice_index, take};
ghost use Rattle.plan.specs.Cells.{Filled};
ghost use Rattle.plan.specs.Next.{First};
ghost use Rattle.plan.specs.Planned.{KeptFrom};
ghost use Rattle.plan.specs.Totals.{Best};
ghost use Rattle.sheet.specs.Sheets.{table};

use crate::next::Start;
use book::Book;
use common::TaskSet;
use sheet::Sheet;

// The lowest task with which the value of the set's cell is reached.
fn first<B: Book>(sheet: &Sheet, book: &B, cells: &[u32], set: TaskSet) -> u8
    requires room { 2 ^ length (table sheet.now) ≤ length cells.now }
    requires set { set.0 + 1 < 2 ^ length (table sheet.now) }
    requires alive { 0 < slice_index cells.now set.0 }
    requires filled { Filled (B.meaning book.now) (table sheet.now) cells.now }
    ensures { First (B.meaning book.now) (table sheet.now) set.0 result (slice_index cells.now set.0) }
{
    let start = Start::after(sheet, set);
    let goal = cells[set.index()];
    for t in 0..sheet.count() {
        if start.next(book, cells, t) == goal {
            return t;
        }
    }
    unreachable!()
}

// Writes the first of the best orders to the front of `order`, and leaves the rest of it.
pub(crate) fn walk<B: Book>(sheet: &Sheet, book: &B, cells: &[u32], order: &mut [u8])
    requires room { 2 ^ length (table sheet.now) ≤ length cells.now }
    requires wide { length (table sheet.now) ≤ length order.old }
    requires alive { 0 < slice_index cells.now 0 }
    requires filled { Filled (B.meaning book.now) (table sheet.now) cells.now }
    ensures best { Best (B.meaning book.now) (table sheet.now) (take (length (table sheet.now)) order.new) }
    ensures kept { KeptFrom (length (table sheet.now)) order.old order.new }
{
    let mut set = TaskSet::EMPTY;
    for i in 0..sheet.count() {
        let t = first(sheet, book, cells, set);
        order[usize::from(i)] = t;
        set = set.with(t);
    }
}
