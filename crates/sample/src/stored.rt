// A sheet and its book, stored as text and made again.
ghost use Rattle.std.specs.Prelude.{◌≡◌, ◌++◌, ◌<◌, ◌≤◌, drop, IfErr, IfOk, length};
ghost use Rattle.book.specs.Standard.{contents};
ghost use Rattle.common.specs.Refusals.{number};
ghost use Rattle.common.specs.declared.refusal.Refusal.TheVariants.{Memory};
ghost use Rattle.file.specs.Saved.{saved};
ghost use Rattle.sheet.specs.Sheets.{table};

use book::StandardBook;
use common::Refusal;
use file::{load_new, save, saved_loads};
use sheet::Sheet;

// Saves the sheet and the book to the front of the memory, and loads what is saved there: the two are the same values. Refused with
// 14 where the memory is shorter than the text, and nowhere else.
pub fn store(
    sheet: &Sheet,
    book: &StandardBook,
    memory: &mut [u8],
) -> Result<(Sheet, StandardBook), Refusal>
    ensures same { IfOk result (λ made. (made.0 ≡ sheet.now) × (made.1 ≡ book.now)) }
    ensures stands { let text = saved (table sheet.now) (contents book.now) in IfOk result (λ _.
        (length text ≤ length memory.old) × (memory.new ≡ text ++ drop (length text) memory.old)) }
    ensures short { IfErr result (λ e. (number e ≡ number Memory) ×
        (length memory.old < length (saved (table sheet.now) (contents book.now))) × (memory.new ≡ memory.old)) }
{
    let len = save(sheet, book, memory)?;
    saved_loads(sheet, book);
    load_new(&memory[..len]).map_err(|fault| fault.cause())
}
