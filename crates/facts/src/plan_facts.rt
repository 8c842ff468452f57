// The plan of a sheet, and its cells.
use crate::shown::print_tasks;
use book::StandardBook;
use common::Refusal;
use plan::plan;
use sheet::Sheet;
use std::io;

// As many as `order` has: enough for 14 tasks.
const CELLS: usize = 16_384;

// No sheet has more tasks.
const PLACES: usize = 16;

fn print_cells(rt: &impl Print, cells: &[u32]) -> io::Result<()> {
    for (set, value) in cells.iter().enumerate() {
        println!(rt; "cell {set} {value}")?;
    }
    Ok(())
}

pub fn print_plan(rt: &impl Print, sheet: &Sheet, book: &StandardBook) -> io::Result<()> {
    let mut cells = [0; CELLS];
    let mut order = [0; PLACES];
    let count = sheet.count();
    match plan(sheet, book, &mut cells, &mut order) {
        Ok(total) => {
            print!(rt; "plan ")?;
            print_tasks(rt, &order[..usize::from(count)])?;
            println!(rt; " {total}")?;
        }
        Err(refusal) => {
            println!(rt; "plan refused {}", refusal.number())?;
            if matches!(refusal, Refusal::Memory) {
                return Ok(());
            }
        }
    }
    print_cells(rt, &cells[..1 << count])
}
