// Loading a file.
ghost use Rattle.std.specs.Prelude.{◌≡◌, ◌≤◌, length, map, IfErr, IfOk, MatchResult, Ok, Err};
ghost use Rattle.file.specs.Faults.{figures};
ghost use Rattle.file.specs.Lines.{pieces};
ghost use Rattle.file.specs.Loads.{called, loaded, longest, made, nothing_made, run};
ghost use Rattle.file.specs.Readings.{reading};

use crate::call::Call;
use crate::fault::Fault;
use crate::pieces::first_piece;
use crate::reading::read;
use book::StandardBook;
use sheet::Sheet;

// A longer file is not loaded.
pub const LONGEST: usize = 65535;

// So many bytes of a file tell whether it is longer.
pub const MOST_READ: u64 = LONGEST as u64 + 1;

// Makes the call of a line.
fn make(call: Call, line: u16, sheet: &mut Sheet, book: &mut StandardBook) -> Result<(), Fault>
    ensures makes { IfOk result (λ _. called (made sheet.old book.old) line call ≡ Ok (made sheet.new book.new)) }
    ensures stops { IfErr result (λ fault. called (made sheet.old book.old) line call ≡ Err (figures fault)) }
{
    match call {
        Call::OnSheet(call) => sheet
            .make(call)
            .map(|_| ())
            .map_err(|cause| Fault::Sheet { line, cause }),
        Call::OnBook(call) => book.make(call).map_err(|cause| Fault::Book { line, cause }),
    }
}

// The sheet and the book that the lines make, on new ones.
fn make_all(file: &[u8]) -> Result<(Sheet, StandardBook), Fault>
    requires { length file.now ≤ longest }
    ensures makes { IfOk result (λ x. run nothing_made 1 (map reading (pieces file.now)) ≡ Ok (made x.0 x.1)) }
    ensures stops { IfErr result (λ fault. run nothing_made 1 (map reading (pieces file.now)) ≡ Err (figures fault)) }
{
    let mut sheet = Sheet::new();
    let mut book = StandardBook::new();
    let mut line = 0;
    let mut rest = file;
    while !rest.is_empty() {
        let (piece, behind) = first_piece(rest);
        line += 1;
        let reading = read(piece).map_err(|cause| Fault::unread(line, cause))?;
        make(reading.frame.call(), line, &mut sheet, &mut book)?;
        rest = behind;
    }
    Ok((sheet, book))
}

// The sheet and the book that the file means: each line makes its call, from the first on, on a new sheet and a new book. Or the
// fault: the file is too long, or a line can't be read or its call is refused.
#[tactic(auto, unfolding(crate::specs::Loads::loaded))]
pub fn load_new(file: &[u8]) -> Result<(Sheet, StandardBook), Fault>
    ensures { MatchResult result (λ x. loaded file.now ≡ Ok (made x.0 x.1)) (λ fault. loaded file.now ≡ Err (figures fault)) }
{
    if file.len() > LONGEST {
        return Err(Fault::TooLong);
    }
    make_all(file)
}

// Replaces the sheet and the book by those that the file means. At a fault both stay as they were.
pub fn load(file: &[u8], sheet: &mut Sheet, book: &mut StandardBook) -> Result<(), Fault>
    ensures { MatchResult result
        (λ _. loaded file.now ≡ Ok (made sheet.new book.new))
        (λ fault. (loaded file.now ≡ Err (figures fault)) × (sheet.new ≡ sheet.old) × (book.new ≡ book.old)) }
{
    (*sheet, *book) = load_new(file)?;
    Ok(())
}
