// Reads a sheet file from the standard input, and prints why it gives no sheet, or else each task with its margin, its earliest end
// and what it is worth then, whether the sheet fits, which tasks are the tightest and the keenest, and the plan.
// Where the input is empty, it makes a sheet and its worth book as two groups do in a week: it prints each call's answer, then the
// same, and also the text that the sheet and the book are saved as, and a row that is laid by hand: what each move answered, and
// what the finished row weighs.
#![tactic(auto)]

use book::StandardBook;
use by_hand::print_row;
use calls::print_group;
use file::{Fault, MOST_READ, ROOM, save};
use names::Names;
use recorded::Recorded;
use sheet::Sheet;
use shown::print_refusal;
use std::io::{self, Read, Write};
use table::print_sheet;
use timeline::{CELLS, PLANNED, print_plan};
use week::{BUS_GROUP, Group, NAMES, RF_GROUP, SOONER};

mod by_hand;
mod calls;
mod names;
mod recorded;
mod shown;
mod table;
mod timeline;
mod week;

// The text that the sheet and its book are saved as, or why there is no room for it.
fn print_file(rt: &impl Print, sheet: &Sheet, book: &StandardBook) -> io::Result<()> {
    let mut text = [0; ROOM];
    match save(sheet, book, &mut text) {
        Ok(len) => {
            println!(rt; "The sheet's file, {len} bytes:")?;
            rt.write_all(&text[..len])
        }
        Err(refusal) => {
            print!(rt; "No file: ")?;
            print_refusal(rt, refusal)
        }
    }
}

fn run_week(rt: &(impl Print + AllocGlobal)) -> io::Result<()> {
    let names = Names::Listed(&NAMES);
    let mut recorded = Recorded::new(rt.alloc());
    let mut book = StandardBook::new();
    for group in [&RF_GROUP, &BUS_GROUP] {
        print_group(rt, names, &mut recorded, &mut book, group)?;
    }
    print_sheet(rt, names, recorded.sheet(), &book)?;
    print_file(rt, recorded.sheet(), &book)?;
    let total = print_plan(rt, names, &recorded, &book)?;
    recorded.note_plan(CELLS, PLANNED)?;
    print_row(rt, names, recorded.sheet(), &book, total)?;
    print_group(rt, names, &mut recorded, &mut book, &SOONER)?;
    let total = print_plan(rt, names, &recorded, &book)?;
    print_row(rt, names, recorded.sheet(), &book, total)
}

fn print_fault(rt: &impl Print, fault: Fault) -> io::Result<()> {
    println!(rt; "No sheet: {fault}")?;
    println!(rt;
        "  layer {}, cause {}, line {}",
        fault.layer(),
        fault.cause().number(),
        fault.line()
    )
}

fn run_file(rt: &(impl Print + AllocGlobal), file: &[u8]) -> io::Result<()> {
    let (recorded, book) = match Recorded::load(rt.alloc(), file)? {
        Ok(made) => made,
        Err(fault) => return print_fault(rt, fault),
    };
    let names = Names::Noted(file);
    print_sheet(rt, names, recorded.sheet(), &book)?;
    print_plan(rt, names, &recorded, &book)?;
    Ok(())
}

fn main(rt: HostRuntime) -> io::Result<()> {
    let mut file = Vec::new(rt.alloc());
    rt.reader().take(MOST_READ).read_to_end(&mut file)?;
    if file.is_empty() {
        run_week(&rt)
    } else {
        run_file(&rt, &file)
    }
}
