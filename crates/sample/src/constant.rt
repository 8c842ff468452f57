// Sheets that are made of constants: the prover computes what planning them answers. The clauses say the numbers; that these are
// what `plan` answers, the bodies show.
ghost use Rattle.std.specs.Prelude.{◌≡◌, [], ◌∷◌, fold};
ghost use Rattle.sheet.specs.Calls.{after};
ghost use Rattle.sheet.specs.Sheets.{table};

use book::StandardBook;
use common::Refusal;
use plan::{plan, tests_answer};
use sheet::{Call, Sheet};

// Makes the calls in turn on a new sheet, whatever each is answered.
#[tactic(auto, using(std::proofs::lemmas::List::Sums::fold_more))]
pub fn made(calls: &[Call]) -> Sheet
    ensures { table result ≡ fold after [] calls.now }
{
    let mut sheet = Sheet::new();
    for call in calls {
        let _ = sheet.make(*call);
    }
    sheet
}

// Three tasks, of which task 1 must end by 6, and task 2 is worth 12 up to 7: what `plan` answers, and the order.
pub fn best_of_three() -> (Result<u32, Refusal>, [u8; 3])
    ensures total { result.0 ≡ Ok 12 }
    ensures order { result.1 ≡ 1 ∷ 2 ∷ 0 ∷ [] }
{
    let sheet = made(&[
        Call::Task(1, 1),
        Call::Task(5, 5),
        Call::Task(2, 2),
        Call::Hard(1, 6),
        Call::Soft(2),
    ]);
    let mut book = StandardBook::new();
    let _ = book.ramp(2, 12, 7, 10);
    let mut cells = [0; 8];
    let mut order = [0; 3];
    let total = plan(&sheet, &book, &mut cells, &mut order);
    tests_answer(&sheet);
    (total, order)
}

// Two tasks, of which task 0 must end by 6, and would at 5, but task 1 stands before it: what `plan` answers.
pub fn none_of_two() -> Result<u32, Refusal>
    ensures { result ≡ Err Refusal.NoOrder }
{
    let sheet = made(&[
        Call::Task(5, 5),
        Call::Task(2, 2),
        Call::Link(1, 0),
        Call::Hard(0, 6),
    ]);
    let total = plan(&sheet, &StandardBook::new(), &mut [0; 4], &mut [0; 2]);
    tests_answer(&sheet);
    total
}
