// What holds of all files, lines and frames, of what is saved and loaded, and of names.
ghost use Rattle.std.specs.Prelude.{◌≡◌, List, ℕ, ◌≤◌, Some, length};
ghost use Rattle.book.specs.Standard.{contents};
ghost use Rattle.file.specs.Again.{DecodedBack, DecodedOnly, LoadsOnly, OneCutting, OneReading, ReadBack, SavedLoads, SavedReads};
ghost use Rattle.file.specs.Names.{Counted, Named};
ghost use Rattle.file.specs.Readings.{OneSaying};
ghost use Rattle.file.specs.Saved.{saved};
ghost use Rattle.file.specs.Stopping.{FrontTells, LineByLine, OneLoad};
ghost use Rattle.sheet.specs.Sheets.{table};

use crate::loading::{LONGEST, MOST_READ, load_new};
use crate::saving::{ROOM, save};
use book::StandardBook;
use sheet::Sheet;

// A file is made of its pieces, and of no others. A line is made of one frame and one note at most; the bytes of a frame are
// decoded to that frame again, and no others that add up to 0 modulo 256; and a line of a frame is read as that frame. Any bytes say
// one frame with one note, or one refusal fits them.
pub fn lines_stand()
    ensures one_cutting { OneCutting }
    ensures one_reading { OneReading }
    ensures decoded_back { DecodedBack }
    ensures decoded_only { DecodedOnly }
    ensures read_back { ReadBack }
    ensures one_saying { (line : List ℕ) → OneSaying line }
{}

// What is saved is read again, line by line, and is no longer than `ROOM`, which is 5,200.
pub fn saved_reads(sheet: &Sheet, book: &StandardBook)
    ensures reads { SavedReads (table sheet.now) (contents book.now) }
    ensures short { length (saved (table sheet.now) (contents book.now)) ≤ ROOM }
    ensures room { ROOM ≡ 5200 }
{}

// What is saved of a sheet and a book is loaded as what they hold, and no other sheet and book are.
pub fn saved_loads(sheet: &Sheet, book: &StandardBook)
    ensures loads { SavedLoads sheet.now book.now }
    ensures only { LoadsOnly sheet.now book.now }
{}

// A load goes line by line: no line makes nothing, each line more makes its call, and all of them make what the file makes, unless
// it is too long; and the fault of a file is that of its first line at fault. Its first `MOST_READ` bytes, which are one more than
// the longest file has, tell what is loaded. A file gives one sheet and one book at most.
pub fn loads_stand()
    ensures by_line { (file : List ℕ) → LineByLine file }
    ensures limit { LONGEST ≡ 65535 }
    ensures most { MOST_READ ≡ 65536 }
    ensures by_front { FrontTells MOST_READ }
    ensures one_load { OneLoad }
{}

// The sheet and the book, saved and loaded again. They are the same values.
pub fn reloaded(sheet: &Sheet, book: &StandardBook) -> Option<(Sheet, StandardBook)>
    ensures { result ≡ Some (sheet.now, book.now) }
{
    let mut text = [0; ROOM];
    let len = save(sheet, book, &mut text).ok()?;
    load_new(&text[..len]).ok()
}

// A name is the note of its task line, or else a line of the names file, without the blanks at its end, and it stands there.
pub fn names_lie()
    ensures named { Named }
    ensures counted { Counted }
{}
