// A history of calls, made in turn on one new sheet, and then a plan.
#![tactic(auto)]

ghost use Rattle.std.specs.Prelude.{◌≡◌, List, ℕ, []};
ghost use Rattle.plan.specs.BestOrder.{BestOrder};
ghost use Rattle.history.specs.Following.{Follows};
ghost use Rattle.history.specs.Histories.{Left, Replayed, after, resulting};
ghost use Rattle.sheet.specs.Sheets.{table};
ghost use Rattle.sheet.specs.Tables.{Table};

use book::{Book, StandardBook};
use common::Refusal;
use file::load;
use plan::plan;
use sheet::Sheet;

mod laws;

pub use laws::histories_stand;

// A call of a history.
#[derive(Clone, Copy, Debug)]
pub enum Call<'a> {
    // One of task, time, link, cut, hard, soft and plain.
    Sheet(sheet::Call),
    // Loads a file, whose sheet takes the place of the one there is.
    Load(&'a [u8]),
    // Plans the sheet as it is then, in so many of the lent cells and bytes: in all of them where fewer are lent.
    Plan { cells: usize, bytes: usize },
}

// Plans the sheet in so many of the cells and bytes, from the first on: in all of them where there are fewer.
fn plan_in<B: Book>(
    sheet: &Sheet,
    book: &B,
    many: usize,
    bytes: usize,
    cells: &mut [u32],
    order: &mut [u8],
)
    ensures { Left (B.meaning book.now) (table sheet.now) (Call.Plan many bytes) cells.old cells.new order.old order.new }
{
    let many = many.min(cells.len());
    let bytes = bytes.min(order.len());
    let _ = plan(sheet, book, &mut cells[..many], &mut order[..bytes]);
}

// Makes one call, whatever it answers.
fn make<B: Book>(
    call: Call<'_>,
    sheet: &mut Sheet,
    loaded: &mut StandardBook,
    book: &B,
    cells: &mut [u32],
    order: &mut [u8],
)
    ensures sheet { table sheet.new ≡ after (table sheet.old) call.entry }
    ensures leaves { Left (B.meaning book.now) (table sheet.old) call.entry cells.old cells.new order.old order.new }
{
    match call {
        Call::Sheet(call) => {
            let _ = sheet.make(call);
        }
        Call::Load(file) => {
            let _ = load(file, sheet, loaded);
        }
        Call::Plan { cells: many, bytes } => plan_in(sheet, book, many, bytes, cells, order),
    }
}

// Makes the calls of the history in turn on one new sheet, those that are refused too, and then answers the plan of the sheet that
// results, under any kind of book.
pub fn replay<B: Book>(
    history: &[Call<'_>],
    book: &B,
    cells: &mut [u32],
    order: &mut [u8],
) -> Result<u32, Refusal>
    ensures best { BestOrder (B.meaning book.now) (resulting history.now) cells.old order.old order.new result }
    ensures follows { (t : Table) × Follows [] history.now t
        × BestOrder (B.meaning book.now) t cells.old order.old order.new result }
    ensures leaves { Replayed (B.meaning book.now) history.now cells.old cells.new order.old order.new result }
{
    let mut sheet = Sheet::new();
    let mut loaded = StandardBook::new();
    for call in history {
        make(*call, &mut sheet, &mut loaded, book, cells, order);
    }
    plan(&sheet, book, cells, order)
}
