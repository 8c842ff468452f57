// The worked sheets, with their books, plans, rows and files, as one list: a contract computes the definitions over it, and a test
// runs it through the code.
#![tactic(auto)]

ghost use Rattle.std.specs.Prelude.{◌≡◌, true};
ghost use Rattle.file.specs.Loads.{made};
ghost use Rattle.known.specs.Answers.{AnswerTests};
ghost use Rattle.known.specs.Files.{FileTests};
ghost use Rattle.plan.specs.Tests.{PlanTests};
ghost use Rattle.known.specs.Rows.{RowTests};
ghost use Rattle.known.specs.Worked.{each_right, Tests};
ghost use Rattle.sheet.specs.Sheets.{table};

use book::StandardBook;
use entry::Entry;
use list::WORKED;
use sheet::Sheet;

pub mod entry;
mod list;
#[cfg(test)]
mod tests;

// What the list asks of fits, tightest, keenest, orders, cells, rows, lines and answers is what these words mean, of every sheet,
// every book and every line.
pub fn tests_stand(sheet: &Sheet, book: &StandardBook)
    ensures sheets { Tests (table sheet.now) }
    ensures plans { PlanTests (table sheet.now) }
    ensures rows { RowTests (table sheet.now) }
    ensures files { FileTests }
    ensures answers { AnswerTests (made sheet.now book.now) }
{}

// By the definitions each entry has its answer: those of each sheet, one after another, from a new sheet and a new book on.
pub fn worked() -> &'static [&'static [Entry]]
    ensures { each_right result.now ≡ true }
{
    WORKED
}
