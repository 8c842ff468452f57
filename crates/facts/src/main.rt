// Reads a sheet file from the standard input, and prints what the library answers about it, line by line: its fault; or of each
// task its durations, its up-set, its margin and its worths, and of the sheet whether it fits, its tightest and keenest task, its
// plan with all cells, its rows and the text that it is saved as.
#![tactic(auto)]

use file::{MOST_READ, ROOM, load_new, save};
use plan_facts::print_plan;
use row_facts::print_rows;
use sheet_facts::{print_sheet, print_worths};
use std::io::{self, Read, Write};

mod plan_facts;
mod row_facts;
mod sheet_facts;
mod shown;

// The lines of the text, each behind a word.
fn print_saved(rt: &impl Print, text: &[u8]) -> io::Result<()> {
    let mut begins = true;
    for byte in text {
        if begins {
            print!(rt; "save ")?;
        }
        rt.write_all(&[*byte])?;
        begins = *byte == b'\n';
    }
    Ok(())
}

fn print_facts(rt: &(impl Print + AllocGlobal), file: &[u8]) -> io::Result<()> {
    let (sheet, book) = match load_new(file) {
        Ok(made) => made,
        Err(fault) => {
            return println!(rt;
                "fault {} {} {}",
                fault.layer(),
                fault.cause().number(),
                fault.line()
            );
        }
    };
    print_sheet(rt, &sheet, &book)?;
    print_worths(rt, &book)?;
    print_plan(rt, &sheet, &book)?;
    print_rows(rt, &sheet, &book)?;
    let mut text = [0; ROOM];
    match save(&sheet, &book, &mut text) {
        Ok(len) => print_saved(rt, &text[..len]),
        Err(refusal) => println!(rt; "save refused {}", refusal.number()),
    }
}

fn main(rt: HostRuntime) -> io::Result<()> {
    let mut file = Vec::new(rt.alloc());
    rt.reader().take(MOST_READ).read_to_end(&mut file)?;
    print_facts(&rt, &file)
}
