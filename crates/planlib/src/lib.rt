// The planner for other programs to link. A sheet and its book come as the bytes of a sheet file.
#![tactic(auto)]

ghost use Rattle.std.specs.Prelude.{◌≡◌, ◌<◌, IfOk, length};
ghost use Rattle.common.specs.Refusals.{number};
ghost use Rattle.file.specs.Loads.{loaded};
ghost use Rattle.planlib.specs.Answers.{Plans, counted, refused};

use common::Refusal;
use file::load_new;

// An answer from here on is this and the number of a refusal.
const REFUSED: u32 = 0xFFFF_FF00;

// What is answered for a refusal.
fn refused(refusal: Refusal) -> u32
    ensures { result ≡ refused (number refusal) }
{
    REFUSED + u32::from(refusal.number())
}

// Answers how many tasks the file makes.
#[unsafe(no_mangle)]
pub extern "C" fn step_make(file: &[u8]) -> u32
    ensures counts { result ≡ counted (loaded file.now) }
    ensures apart { IfOk (loaded file.now) (λ made. length made.tasks < refused 0) }
{
    match load_new(file) {
        Ok((sheet, _)) => u32::from(sheet.count()),
        Err(fault) => refused(fault.cause()),
    }
}

// Writes the best order of the sheet that the file makes, and answers its total.
#[unsafe(no_mangle)]
pub extern "C" fn step_plan(file: &[u8], cells: &mut [u32], order: &mut [u8]) -> u32
    ensures { Plans (loaded file.now) cells.old cells.new order.old order.new result }
{
    match load_new(file) {
        Ok((sheet, book)) => plan::plan(&sheet, &book, cells, order).unwrap_or_else(refused),
        Err(fault) => refused(fault.cause()),
    }
}
