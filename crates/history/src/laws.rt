// What holds of all histories.
ghost use Rattle.std.specs.Prelude.{◌≡◌, ◌↔◌, List, []};
ghost use Rattle.history.specs.Following.{Follows};
ghost use Rattle.history.specs.Histories.{resulting};
ghost use Rattle.history.specs.declared.Call.{Call};
ghost use Rattle.sheet.specs.Tables.{Table};

// From every history follows the table that results, and no other.
pub fn histories_stand()
    ensures { (history : List Call) (t : Table) → Follows [] history t ↔ (t ≡ resulting history) }
{}
