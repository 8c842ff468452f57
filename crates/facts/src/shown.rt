// What is printed in more than one place: the number of an answer, and lists of tasks.
use common::Refusal;
use std::io;

// 0 where it is accepted, else the number of its refusal.
pub fn number(answer: Result<(), Refusal>) -> u8 {
    match answer {
        Ok(()) => 0,
        Err(refusal) => refusal.number(),
    }
}

// The tasks with commas between them, or a dash where there is none.
pub fn print_tasks(rt: &impl Print, tasks: &[u8]) -> io::Result<()> {
    let Some((first, others)) = tasks.split_first() else {
        return print!(rt; "-");
    };
    print!(rt; "{first}")?;
    for t in others {
        print!(rt; ",{t}")?;
    }
    Ok(())
}
