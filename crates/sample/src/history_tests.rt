use crate::FlatBook;
use book::StandardBook;
use common::Refusal;
use history::Call::{self, Load, Plan};
use history::replay;
use sheet::Call::{Cut, Hard, Link, Plain, Soft, Task, Time};

// A task of one tick, one of five that must end by 6, and a soft one of two.
const THREE: &[u8] = b"0100010001FD\n0100050005F5\n0100020002FB\n0301000006F6\n0502F9\n";

// The same, and then a line that can't be read.
const FAULTY: &[u8] = b"0100010001FD\n0100050005F5\n0100020002FB\n0301000006F6\n0502F8\n";

// A plan in all of the memory that `replayed` lends.
const PLAN: Call<'static> = Plan { cells: 9, bytes: 4 };

// Worth 12 up to 7, then falling to nothing at 10.
fn falling() -> StandardBook {
    let mut book = StandardBook::new();
    let _ = book.ramp(2, 12, 7, 10);
    book
}

// What the history answers, and what it leaves of nine cells and four bytes.
fn replayed(history: &[Call<'_>]) -> (Result<u32, Refusal>, [u32; 9], [u8; 4]) {
    let mut cells = [7; 9];
    let mut order = [9; 4];
    let answer = replay(history, &falling(), &mut cells, &mut order);
    (answer, cells, order)
}

#[test]
fn no_call_at_all_plans_a_new_sheet(rt: HostRuntime) {
    let (answer, cells, order) = replayed(&[]);
    assert_eq!(rt; answer, Ok(0));
    assert!(rt; cells == [1, 7, 7, 7, 7, 7, 7, 7, 7] && order == [9; 4]);
}

#[test]
fn refused_calls_and_faults_leave_the_sheet(rt: HostRuntime) {
    let (answer, cells, order) = replayed(&[
        Call::Sheet(Task(9, 9)),
        Call::Sheet(Link(0, 0)),
        Load(FAULTY),
        PLAN,
        Load(THREE),
        Call::Sheet(Task(0, 1)),
        Call::Sheet(Hard(2, 9)),
        Call::Sheet(Cut(0, 1)),
        Load(FAULTY),
        Load(b"\n"),
        PLAN,
    ]);
    assert_eq!(rt; answer, Ok(12));
    assert!(rt; cells[0] == 13 && cells[7] == 1 && cells[8] == 7 && order == [1, 2, 0, 9]);
}

#[test]
fn calls_after_a_load_change_its_sheet(rt: HostRuntime) {
    let sooner = [Load(THREE), Call::Sheet(Hard(1, 4))];
    assert_eq!(rt; replayed(&sooner).0, Err(Refusal::NoOrder));
    let linked = [
        Load(THREE),
        Call::Sheet(Link(0, 1)),
        Call::Sheet(Time(2, 1, 1)),
    ];
    let (answer, _, order) = replayed(&linked);
    assert!(rt; answer == Ok(12) && order == [0, 1, 2, 9]);
    let none = [Load(THREE), Call::Sheet(Plain(1)), Call::Sheet(Plain(2))];
    let (answer, _, order) = replayed(&none);
    assert!(rt; answer == Ok(0) && order == [0, 1, 2, 9]);
}

// A plan in between fills cells of the larger sheet, which the last plan, of no task, leaves.
#[test]
fn a_plan_in_between_leaves_its_cells(rt: HostRuntime) {
    let (answer, cells, order) = replayed(&[Load(THREE), PLAN, Load(b""), PLAN]);
    assert_eq!(rt; answer, Ok(0));
    assert!(rt; cells[0] == 1 && cells[7] == 1 && cells[8] == 7 && order == [1, 2, 0, 9]);
}

#[test]
fn memory_too_short_is_refused(rt: HostRuntime) {
    let four = [Load(THREE), PLAN, Call::Sheet(Task(1, 1)), PLAN];
    assert_eq!(rt; replayed(&four).0, Err(Refusal::Memory));
}

// Three tasks need eight cells and three bytes: a plan that is given fewer leaves all of them, and the last one answers.
#[test]
fn a_plan_in_too_few_cells_leaves_the_memory(rt: HostRuntime) {
    let few = Plan { cells: 7, bytes: 4 };
    let short = Plan { cells: 9, bytes: 2 };
    let (answer, cells, order) = replayed(&[Load(THREE), few, short, Load(b"")]);
    assert_eq!(rt; answer, Ok(0));
    assert!(rt; cells == [1, 7, 7, 7, 7, 7, 7, 7, 7] && order == [9; 4]);
    let (answer, _, order) = replayed(&[Load(THREE), few, short]);
    assert!(rt; answer == Ok(12) && order == [1, 2, 0, 9]);
}

// A plan that is given just enough is made; one that is given more than there is has all of it.
#[test]
fn a_plan_is_made_in_what_it_is_given(rt: HostRuntime) {
    let most = usize::MAX;
    for plan in [
        Plan { cells: 8, bytes: 3 },
        Plan {
            cells: most,
            bytes: most,
        },
    ] {
        let (answer, cells, order) = replayed(&[Load(THREE), plan, Load(b"")]);
        assert!(rt; answer == Ok(0) && cells[7] == 1 && order == [1, 2, 0, 9]);
    }
}

#[test]
fn any_book_serves(rt: HostRuntime) {
    let mut cells = [0; 8];
    let mut order = [0; 3];
    let history = [Load(THREE), Call::Sheet(Soft(0))];
    let book = FlatBook::new(5, 6);
    assert_eq!(rt; replay(&history, &book, &mut cells, &mut order), Ok(5));
    assert!(rt; order == [0, 1, 2]);
}
