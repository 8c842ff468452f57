// What holds of all orders, cells and sheets.
ghost use Rattle.std.specs.Prelude.{◌≡◌, ◌↔◌, ◌<◌, ℕ};
ghost use Rattle.book.specs.Worths.{Meaning};
ghost use Rattle.plan.specs.Cells.{Cell};
ghost use Rattle.plan.specs.Orders.{Continuation, Lawful, NoLawful, Order};
ghost use Rattle.plan.specs.Tests.{PlanTests, TestsAnswer};
ghost use Rattle.plan.specs.Totals.{Best};
ghost use Rattle.sheet.specs.Links.{Closed};
ghost use Rattle.sheet.specs.Margins.{Fits};
ghost use Rattle.sheet.specs.Remaining.{FitsAfter};
ghost use Rattle.sheet.specs.Sheets.{table};
ghost use Rattle.sheet.specs.Tables.{Table};

use sheet::Sheet;

// Margins decide: a sheet fits exactly where it has a lawful order. And where tasks have run, with all that must stand before them,
// what is left of the deadlines decides in the same way whether an order goes on.
pub fn margins_decide(sheet: &Sheet)
    ensures fits { Fits (table sheet.now) ↔ ((o : Order) × Lawful (table sheet.now) o) }
    ensures after { (s : ℕ) → Closed (table sheet.now) s →
        FitsAfter (table sheet.now) s ↔ ((o : Order) × Continuation (table sheet.now) s o) }
{}

// The continuations of the empty set are the lawful orders. A cell is above 0 exactly where its set has a continuation, and that
// of the empty set is 0 exactly where no order is lawful.
pub fn cells_decide()
    ensures empty { (t : Table) (o : Order) → Continuation t 0 o ↔ Lawful t o }
    ensures continues { (m : Meaning) (t : Table) (s v : ℕ) → Cell m t s v → (0 < v) ↔ ((o : Order) × Continuation t s o) }
    ensures lawful { (m : Meaning) (t : Table) (v : ℕ) → Cell m t 0 v → (v ≡ 0) ↔ NoLawful t }
{}

// No two orders are the best.
pub fn best_is_unique()
    ensures { (m : Meaning) (t : Table) (o p : Order) → Best m t o → Best m t p → o ≡ p }
{}

// The tests that compute, by listing every order, find exactly what is best, lawful and in a cell, of every sheet and under every
// meaning.
pub fn tests_stand(sheet: &Sheet)
    ensures { PlanTests (table sheet.now) }
{}

// So they find exactly what `plan` answers and leaves where memory suffices: for a sheet that is made of constants, the prover
// computes the answer.
pub fn tests_answer(sheet: &Sheet)
    ensures { TestsAnswer (table sheet.now) }
{}
