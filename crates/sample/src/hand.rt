// A plan's order laid by hand.
ghost use Rattle.std.specs.Prelude.{◌≡◌, ◌↔◌, ◌++◌};
ghost use Rattle.common.specs.Refusals.{outcome};
ghost use Rattle.plan.specs.Planned.{Planned};
ghost use Rattle.row.specs.Laid.{laid, open_sheet};
ghost use Rattle.row.specs.Rows.{Leads};
ghost use Rattle.sheet.specs.Sheets.{table};

use book::Book;
use common::Refusal;
use plan::plan;
use row::{OpenRow, begin};
use sheet::Sheet;

// Places the tasks one after another, up to the first that is refused. All are accepted exactly where some lawful order begins
// with the row and then the tasks.
fn lay(row: &mut OpenRow, tasks: &[u8]) -> Result<(), Refusal>
    ensures all { (outcome result ≡ 0) ↔ Leads (table (open_sheet row.old)) (laid row.old ++ tasks.now) }
    ensures lays { outcome result ≡ 0 → laid row.new ≡ laid row.old ++ tasks.now }
    ensures sheet { open_sheet row.new ≡ open_sheet row.old }
{
    for t in tasks {
        row.place(*t)?;
    }
    Ok(())
}

// Makes a plan and lays its order on a row. Refused as the plan is; else it answers what the finished row weighs, which is the
// plan's total.
pub fn by_hand<B: Book>(
    sheet: &Sheet,
    book: &B,
    cells: &mut [u32],
    order: &mut [u8],
) -> Result<u32, Refusal>
    ensures { Planned (B.meaning book.now) (table sheet.now) cells.old cells.new order.old order.new result }
{
    plan(sheet, book, cells, order)?;
    let (mut row, begun) = begin(sheet);
    begun?;
    lay(&mut row, &order[0..usize::from(sheet.count())])?;
    Ok(row.finish().weigh(book))
}
