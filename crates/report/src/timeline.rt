// Orders as timelines, and the best order.
use crate::names::Names;
use crate::recorded::Recorded;
use crate::shown::{OrDash, print_refusal, worth};
use book::StandardBook;
use common::{Expected, Maximum};
use sheet::Sheet;
use std::io;

// At most this many tasks are planned.
pub const PLANNED: usize = 14;

// A cell for each set of them.
pub const CELLS: usize = 1 << PLANNED;

// The sheet's tasks, which stand in the first places of the order: each with its expected and its maximum completion, its
// deadline, and what it is worth then.
pub fn print_order(
    rt: &impl Print,
    names: Names,
    sheet: &Sheet,
    book: &StandardBook,
    order: &[u8],
) -> io::Result<()> {
    let mut expected = Expected::from(0);
    let mut maximum = Maximum::from(0);
    for &t in order.iter().take(usize::from(sheet.count())) {
        let Ok(task) = sheet.get(t) else {
            return Ok(());
        };
        expected = expected.plus(task.expected());
        maximum = maximum.plus(task.maximum());
        let name = names.of(t);
        let deadline = OrDash(task.kind.deadline());
        let worth = worth(book, t, task.kind, expected);
        println!(rt;
            "{t:>4}  {name:<15} {:>8} {:>8}{deadline:>9}{worth:>9}",
            expected.0, maximum.0
        )?;
    }
    Ok(())
}

// The best order and its total, which it answers; or why there is none. The sheet that is planned is the one that is printed: the
// order has all that is proved of the plan of that sheet.
pub fn print_plan(
    rt: &impl Print,
    names: Names,
    recorded: &Recorded,
    book: &StandardBook,
) -> io::Result<Option<u32>> {
    let mut cells = [0; CELLS];
    let mut order = [0; PLANNED];
    let total = match recorded.plan(book, &mut cells, &mut order) {
        Ok(total) => total,
        Err(refusal) => {
            print!(rt; "No plan: ")?;
            print_refusal(rt, refusal)?;
            return Ok(None);
        }
    };
    println!(rt; "Plan  name            expected  maximum deadline    worth")?;
    print_order(rt, names, recorded.sheet(), book, &order)?;
    println!(rt; "Total: {total}")?;
    Ok(Some(total))
}
