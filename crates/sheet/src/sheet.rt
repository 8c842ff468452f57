// The sheet: a table of tasks with its rules in its type.
ghost use Rattle.std.specs.Prelude.{◌≡◌, []};
ghost use Rattle.sheet.specs.Lists.{listed};
ghost use Rattle.sheet.specs.Rules.{Keeps};

use crate::table::Table;
use common::Exact;

mod calls;
mod equal;
mod load;
mod make;
mod margins;
mod reads;
mod up_set;

pub use equal::equal_sheets;
pub use load::Load;

// At most sixteen tasks, numbered from 0 as they are added. Equal sheets are equal values.
#[derive(Clone, Copy, Debug, PartialEq, Eq)]
pub struct Sheet {
    table: Table,
    ghost keeps: { Keeps (listed table) },
}

impl Sheet {
    ghost use Rattle.sheet.specs.Sheets.{table};

    // A sheet without tasks.
    #[tactic(auto, using(crate::proofs::Rules::empty_sound))]
    pub fn new() -> Sheet
        ensures { table result ≡ [] }
    {
        Sheet {
            table: Table::empty(),
        }
    }
}

impl Exact for Sheet {
    ghost use Rattle.sheet.specs.EqualLaws.{sheets_exact};

    ghost exact = { sheets_exact };
}
