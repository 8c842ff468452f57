// The best order of a sheet's tasks under a worth book.
#![tactic(auto)]

ghost use Rattle.std.specs.Prelude.{◌↔◌, IsOk};
ghost use Rattle.plan.specs.BestOrder.{BestOrder};
ghost use Rattle.plan.specs.Planned.{Planned, Suffices};
ghost use Rattle.sheet.specs.Margins.{Fits};
ghost use Rattle.sheet.specs.Sheets.{table};

use book::Book;
use common::Refusal;
use sheet::Sheet;

mod cells;
mod laws;
mod next;
mod walk;

pub use laws::{best_is_unique, cells_decide, margins_decide, tests_answer, tests_stand};
pub use next::earns;

// Writes to the front of `order` the lawful order of greatest total, the first of equals, and answers that total. `cells` is
// memory for one number for each set of tasks; afterwards each holds one more than the greatest total that is left from its set
// on, or 0 where no order goes on from it. Refused with 14 where either is too short, else with 10 where no order is lawful.
pub fn plan<B: Book>(
    sheet: &Sheet,
    book: &B,
    cells: &mut [u32],
    order: &mut [u8],
) -> Result<u32, Refusal>
    ensures planned { Planned (B.meaning book.now) (table sheet.now) cells.old cells.new order.old order.new result }
    ensures best { BestOrder (B.meaning book.now) (table sheet.now) cells.old order.old order.new result }
    ensures total { IsOk result ↔ (Suffices (table sheet.now) cells.old order.old × Fits (table sheet.now)) }
{
    let count = usize::from(sheet.count());
    if cells.len() < 1 << count || order.len() < count {
        return Err(Refusal::Memory);
    }
    cells::fill(sheet, book, cells);
    let total = cells[0].checked_sub(1).ok_or(Refusal::NoOrder)?;
    walk::walk(sheet, book, cells, order);
    Ok(total)
}
