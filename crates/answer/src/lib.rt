// The line that answers a sheet file: the best order of its sheet and the total, or why there is none.
#![tactic(auto)]

ghost use Rattle.std.specs.Prelude.{◌≡◌, ◌≤◌, ℕ, IfErr, IfOk, IsOk, drop, length, take};
ghost use Rattle.answer.specs.Answers.{Answered, Answers, AnswersAll, fault_bytes, most, order_bytes};
ghost use Rattle.file.specs.Faults.{figures};
ghost use Rattle.file.specs.Frames.{bytes_line};
ghost use Rattle.file.specs.Loads.{made};
ghost use Rattle.file.specs.declared.fault.Fault.TheVariants.{Plan};
ghost use Rattle.plan.specs.Orders.{Order};

use book::StandardBook;
use common::Refusal;
use file::{Fault, load_new, write_line};
use plan::plan;
use sheet::Sheet;

mod stream;
#[cfg(test)]
mod tests;

pub use stream::{Failure, answer_stream};

// The first byte of an answer.
mod kind {
    pub const ORDER: u8 = 0x20;

    pub const FAULT: u8 = 0x2f;
}

// A sheet of more tasks is not planned.
const MOST: usize = 14;

// There are 16,384 cells, enough for that many tasks.
const CELLS: usize = 1 << MOST;

// The kind and the count of tasks stand before the order.
const HEAD: usize = 2;

// The total stands behind it, in three bytes. No answer has more bytes before its closing one.
const BYTES: usize = HEAD + MOST + 3;

// No line is longer: each byte has two digits, and 0A ends the line.
pub const LINE: usize = 2 * (BYTES + 1) + 1;

// Puts the kind and the count before the order, which stands from the third byte on, and the total behind it. Answers how many
// bytes these are.
fn frame_order(bytes: &mut [u8; BYTES], count: usize, total: u32) -> usize
    requires { count ≤ most }
    ensures framed { take result bytes.new ≡ order_bytes (take count (drop 2 bytes.old)) total }
    ensures within { result ≤ BYTES }
{
    let [_, high, middle, low] = total.to_be_bytes();
    bytes[0] = kind::ORDER;
    // At most 14: the cast is proved to keep it.
    bytes[1] = count as u8;
    bytes[HEAD + count] = high;
    bytes[HEAD + count + 1] = middle;
    bytes[HEAD + count + 2] = low;
    HEAD + count + 3
}

// Writes the bytes that answer each file that makes these two, and answers how many they are; refused as `plan` is.
fn plan_bytes(sheet: &Sheet, book: &StandardBook, bytes: &mut [u8; BYTES]) -> Result<usize, Refusal>
    ensures shows { IfOk result (λ len. (len ≤ BYTES) × AnswersAll (made sheet.now book.now) (take len bytes.new)) }
    ensures stops { IfErr result (λ e. AnswersAll (made sheet.now book.now) (fault_bytes (figures (Plan e)))) }
{
    let mut cells = [0; CELLS];
    let total = plan(sheet, book, &mut cells, &mut bytes[HEAD..HEAD + MOST])?;
    Ok(frame_order(bytes, usize::from(sheet.count()), total))
}

// Writes the bytes that answer the file, and answers how many they are, unless there is a fault.
fn answer_bytes(file: &[u8], bytes: &mut [u8; BYTES]) -> Result<usize, Fault>
    ensures answers { IfOk result (λ len. (len ≤ BYTES) × Answers file.now (take len bytes.new)) }
    ensures stops { IfErr result (λ fault. Answers file.now (fault_bytes (figures fault))) }
{
    let (sheet, book) = load_new(file)?;
    plan_bytes(&sheet, &book, bytes).map_err(|cause| Fault::Plan { cause })
}

// The bytes that tell a fault.
fn fault_bytes(fault: Fault) -> [u8; 5]
    ensures { result ≡ fault_bytes (figures fault) }
{
    let [high, low] = fault.line().to_be_bytes();
    [
        kind::FAULT,
        fault.layer(),
        fault.cause().number(),
        high,
        low,
    ]
}

// Writes the line that answers the file to the front of the memory, and answers its length; nothing behind it is written. Where
// there is no room for all of it, nothing is; `LINE` bytes are room for any line, and an order of 14 tasks takes all of them. Of a
// file without a fault, the line tells what `history::replay` answers for the history that loads this file and no more.
pub fn answer(file: &[u8], out: &mut [u8]) -> Result<usize, Refusal>
    ensures answers { Answered file.now out.old out.new result }
    ensures room { LINE ≤ length out.old → IsOk result }
    ensures longest { (o : Order) (v : ℕ) → length o ≡ most → length (bytes_line (order_bytes o v)) ≡ LINE }
{
    let mut bytes = [0; BYTES];
    match answer_bytes(file, &mut bytes) {
        Ok(len) => write_line(&bytes[..len], out),
        Err(fault) => write_line(&fault_bytes(fault), out),
    }
}
