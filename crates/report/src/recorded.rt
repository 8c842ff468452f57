// A sheet, and the history of the calls that made it.
ghost use Rattle.std.specs.Prelude.{◌≡◌};
ghost use Rattle.history.specs.Histories.{resulting};
ghost use Rattle.sheet.specs.Sheets.{table};

use book::{Book, StandardBook};
use common::Refusal;
use file::{Fault, load_new};
use history::{Call, replay};
use sheet::Sheet;
use std::alloc::{AllocError, Global};

// The sheet is the one that results from the history.
#[derive(Drop)]
pub struct Recorded<'a> {
    sheet: Sheet,
    history: Vec<Call<'a>>,
    ghost made: { table sheet ≡ resulting history.items },
}

impl<'a> Recorded<'a> {
    ghost use Rattle.std.specs.Prelude.{[], ◌∷◌, ◌++◌, IfErr, IfOk, MatchResult, Ok, Err};
    ghost use Rattle.common.specs.Refusals.{outcome};
    ghost use Rattle.file.specs.Faults.{figures};
    ghost use Rattle.file.specs.Loads.{loaded, made};
    ghost use Rattle.plan.specs.BestOrder.{BestOrder};
    ghost use Rattle.sheet.specs.Calls.{Called};

    // A new sheet.
    pub fn new(heap: Global) -> Recorded<'a>
        ensures { table result.sheet ≡ [] }
    {
        Recorded {
            sheet: Sheet::new(),
            history: Vec::new(heap),
        }
    }

    // The sheet of the file, and beside it the file's book; or the file's fault.
    pub fn load(
        heap: Global,
        file: &'a [u8],
    ) -> Result<Result<(Recorded<'a>, StandardBook), Fault>, AllocError>
        ensures { IfOk result (λ answer. MatchResult answer
            (λ x. loaded file.now ≡ Ok (made x.0.sheet x.1))
            (λ fault. loaded file.now ≡ Err (figures fault))) }
    {
        let (sheet, book) = match load_new(file) {
            Ok(made) => made,
            Err(fault) => return Ok(Err(fault)),
        };
        let mut history = Vec::new(heap);
        history.push(Call::Load(file))?;
        Ok(Ok((Recorded { sheet, history }, book)))
    }

    // Makes the call on the sheet, and answers what the sheet does; the sheet stays where there is no memory to record it.
    #[tactic(auto, using(std::proofs::lemmas::List::Sums::fold_push))]
    pub fn make(&mut self, call: sheet::Call) -> Result<Result<Option<u8>, Refusal>, AllocError>
        ensures called { IfOk result (λ answer.
            Called (table self.old.sheet) (table self.new.sheet) call (outcome answer)) }
        ensures records { IfOk result (λ _. self.new.history.items ≡ self.old.history.items ++ Call.Sheet call ∷ []) }
        ensures kept { IfErr result (λ _. self.new.sheet ≡ self.old.sheet) }
    {
        self.history.push(Call::Sheet(call))?;
        Ok(self.sheet.make(call))
    }

    // Records that the sheet was planned in so many cells and bytes.
    #[tactic(auto, using(std::proofs::lemmas::List::Sums::fold_push))]
    pub fn note_plan(&mut self, cells: usize, bytes: usize) -> Result<(), AllocError>
        ensures { self.new.sheet ≡ self.old.sheet }
    {
        self.history.push(Call::Plan { cells, bytes })?;
        Ok(())
    }

    // The sheet as it is now.
    pub fn sheet(&self) -> &Sheet
        ensures { result.now ≡ self.now.sheet }
    {
        &self.sheet
    }

    // Makes the calls again on a new sheet, and answers the plan of the sheet that results, which is this one.
    pub fn plan<B: Book>(
        &self,
        book: &B,
        cells: &mut [u32],
        order: &mut [u8],
    ) -> Result<u32, Refusal>
        ensures { BestOrder (B.meaning book.now) (table self.now.sheet) cells.old order.old order.new result }
    {
        replay(&self.history, book, cells, order)
    }
}
