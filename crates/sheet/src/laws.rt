// What holds of all sheets.
ghost use Rattle.std.specs.Prelude.{◌≡◌, ◌↔◌, ℕ};
ghost use Rattle.sheet.specs.Calls.{after, verdict};
ghost use Rattle.sheet.specs.Effects.{Does};
ghost use Rattle.sheet.specs.Rules.{Keeps};
ghost use Rattle.sheet.specs.Sheets.{table};
ghost use Rattle.sheet.specs.Tables.{Table};
ghost use Rattle.sheet.specs.declared.call.Call.{Call};

use crate::sheet::Sheet;

// Every sheet keeps its rules.
pub fn rules_stand(sheet: &Sheet)
    ensures { Keeps (table sheet.now) }
{}

// Sheets with equal tables are equal: a sheet holds nothing that its table does not show.
#[tactic(auto, using(crate::proofs::Equal::same_tables))]
pub fn equal_tables(a: &Sheet, b: &Sheet)
    ensures { table a.now ≡ table b.now → a.now ≡ b.now }
{}

// On every sheet each call answers the number and leaves the table that the relation says, and no others: they are just those that
// the definitions compute.
pub fn calls_stand(sheet: &Sheet)
    ensures { (c : Call) (n : ℕ) (t : Table) →
        Does (table sheet.now) c n t ↔ ((n ≡ verdict (table sheet.now) c) × (t ≡ after (table sheet.now) c)) }
{}
