// The cells, one for each set of tasks.
ghost use Rattle.std.specs.Prelude.{◌+◌, ◌^◌, ◌≤◌, ◌<◌, length};
ghost use Rattle.plan.specs.Cells.{Cell, Filled};
ghost use Rattle.plan.specs.Next.{FilledFrom};
ghost use Rattle.plan.specs.Planned.{KeptFrom};
ghost use Rattle.sheet.specs.Sheets.{table};

use crate::next::Start;
use book::Book;
use common::TaskSet;
use sheet::Sheet;

// The cell of a set that lacks some task, by the cells of the sets above it.
fn cell<B: Book>(sheet: &Sheet, book: &B, cells: &[u32], set: TaskSet) -> u32
    requires room { 2 ^ length (table sheet.now) ≤ length cells.now }
    requires set { set.0 + 1 < 2 ^ length (table sheet.now) }
    requires filled { FilledFrom (B.meaning book.now) (table sheet.now) (set.0 + 1) cells.now }
    ensures { Cell (B.meaning book.now) (table sheet.now) set.0 result }
{
    let start = Start::after(sheet, set);
    let mut best = 0;
    for t in 0..sheet.count() {
        best = best.max(start.next(book, cells, t));
    }
    best
}

// Fills the cell of each set, the highest number first, and leaves the others.
pub(crate) fn fill<B: Book>(sheet: &Sheet, book: &B, cells: &mut [u32])
    requires { 2 ^ length (table sheet.now) ≤ length cells.old }
    ensures filled { Filled (B.meaning book.now) (table sheet.now) cells.new }
    ensures kept { KeptFrom (2 ^ length (table sheet.now)) cells.old cells.new }
{
    let full = (1usize << sheet.count()) - 1;
    // After all tasks nothing is left to earn: the total is 0.
    cells[full] = 1;
    for number in (0..full).rev() {
        // Below 2^16: the cast is proved to keep it.
        cells[number] = cell(sheet, book, cells, TaskSet::from(number as u16));
    }
}
