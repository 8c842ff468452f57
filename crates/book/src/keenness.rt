// Which soft task earns most for its time.
ghost use Rattle.std.specs.Prelude.{◌≡◌, false, ℕ, slice_index_or, length, MatchOption, None};
ghost use Rattle.book.specs.Keenest.{Keenest, Keenness, soft};
ghost use Rattle.sheet.specs.Sheets.{table};

use crate::book::Book;
use common::{Expected, Fraction, first_present};
use sheet::{Kind, Sheet};
use std::array;

// What the task is worth at time 0, divided by the ticks that its up-set is expected to take; absent where it isn't soft.
fn keenness<B: Book>(sheet: &Sheet, book: &B, t: u8) -> Option<Fraction>
    ensures { Keenness (B.meaning book.now) (table sheet.now) t result }
{
    let Kind::Soft = sheet.get(t).ok()?.kind else {
        return None;
    };
    let above = sheet.up_set(t).ok()?;
    Fraction::new(
        book.worth(t, Expected::from(0)),
        sheet.loads(above).expected.0,
    )
}

// The keenness of each task.
fn ranks<B: Book>(sheet: &Sheet, book: &B) -> [Option<Fraction>; 16]
    ensures whole { length result ≡ 16 }
    ensures each { (k : ℕ) → Keenness (B.meaning book.now) (table sheet.now) k (slice_index_or result k None) }
{
    // An index below 16: the cast is proved to keep it.
    array::from_fn(|t| keenness(sheet, book, t as u8))
}

// The soft task of greatest worth at time 0 for each tick that its up-set is expected to take, the lowest-numbered of equals.
pub fn keenest<B: Book>(sheet: &Sheet, book: &B) -> Option<u8>
    ensures { MatchOption result ((k : ℕ) → soft (table sheet.now) k ≡ false)
        (Keenest (B.meaning book.now) (table sheet.now)) }
{
    let t = first_present(&ranks(sheet, book))?;
    // An index below 16: the cast is proved to keep it.
    Some(t as u8)
}
