// Rows of tasks that are laid by hand: every row is the front of a lawful order, and the rest can be laid by itself.
#![tactic(auto)]

ghost use Rattle.std.specs.Prelude.{◌≡◌, ◌↔◌, ◌⊎◌, []};
ghost use Rattle.common.specs.Refusals.{number, outcome};
ghost use Rattle.common.specs.declared.refusal.Refusal.TheVariants.{NoOrder};
ghost use Rattle.plan.specs.Orders.{NoLawful};
ghost use Rattle.row.specs.Laid.{laid, open_sheet};
ghost use Rattle.row.specs.Rows.{Leads};
ghost use Rattle.sheet.specs.Margins.{Fits};
ghost use Rattle.sheet.specs.Sheets.{table};

use common::Refusal;
use sheet::Sheet;

mod full;
mod laws;
mod open;
mod tally;
mod trial;

pub use full::FullRow;
pub use laws::plan_weighs_most;
pub use open::OpenRow;
pub use tally::Tally;
pub use trial::Trial;

// An empty row on a copy of the sheet. Where no order of it is lawful, the row is on a sheet without tasks, and beside it
// stands 10.
pub fn begin(sheet: &Sheet) -> (OpenRow, Result<(), Refusal>)
    ensures empty { laid result.0 ≡ [] }
    ensures fits { (outcome result.1 ≡ 0) ↔ Fits (table sheet.now) }
    ensures unfit { (outcome result.1 ≡ number NoOrder) ↔ (Fits (table sheet.now) → ⊥) }
    ensures begun { outcome result.1 ≡ 0 → (open_sheet result.0 ≡ sheet.now) × Leads (table sheet.now) [] }
    ensures refused { outcome result.1 ≡ number NoOrder → (table (open_sheet result.0) ≡ []) × NoLawful (table sheet.now) }
    ensures only { (outcome result.1 ≡ 0) ⊎ (outcome result.1 ≡ number NoOrder) }
{
    if sheet.fits() {
        (OpenRow::on(*sheet), Ok(()))
    } else {
        (OpenRow::on(Sheet::new()), Err(Refusal::NoOrder))
    }
}
