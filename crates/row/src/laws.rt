// What holds of rows beside plan.
ghost use Rattle.std.specs.Prelude.{◌≡◌, ◌∷◌, [], ◌++◌, ◌≤◌, ℕ};
ghost use Rattle.book.specs.Worths.{Meaning};
ghost use Rattle.plan.specs.Orders.{Lawful, Order};
ghost use Rattle.plan.specs.Totals.{Best, total};
ghost use Rattle.row.specs.Rows.{First, Judged};
ghost use Rattle.sheet.specs.Tables.{Table};

// No lawful order totals more than plan's. Each task of plan's order is accepted behind those before it, and a row that is
// finished from the whole of that order is that order.
pub fn plan_weighs_most()
    ensures most { (m : Meaning) (t : Table) (o best : Order) → Lawful t o → Best m t best → total m t o ≤ total m t best }
    ensures takes { (m : Meaning) (t : Table) (row : Order) (k : ℕ) (rest best : Order) → Best m t best →
        best ≡ row ++ k ∷ rest → Judged t row k 0 }
    ensures ends { (m : Meaning) (t : Table) (best o : Order) → Best m t best → First t best o → o ≡ best }
{}
