// Which sheets are equal.
ghost use Rattle.std.specs.Prelude.{◌≡◌, ◌↔◌, IsTrue};
ghost use Rattle.sheet.specs.Rules.{Alike};
ghost use Rattle.sheet.specs.Sheets.{table};

use crate::sheet::Sheet;

// Equal sheets are the same value, and have the same tasks and links. A derived `==` has no clause of its own, so this says
// what it finds.
#[tactic(auto, using(crate::specs::EqualLaws::sheets_exact, crate::proofs::Equal::sheets_alike))]
pub fn equal_sheets(a: &Sheet, b: &Sheet) -> bool
    ensures same { IsTrue result ↔ (a.now ≡ b.now) }
    ensures alike { IsTrue result ↔ Alike (table a.now) (table b.now) }
{
    a == b
}
