use crate::{
    FlatBook, beside, best_of_three, by_hand, choices, gain, none_of_two, reaches, sooner, store,
    total_or_refusal, total_with,
};
use book::{Book, StandardBook, Sum, Weighted, keenest, last_worth};
use common::{Expected, Refusal};
use plan::plan;
use row::begin;
use sheet::{Kind, Sheet};

#[test]
fn a_new_kind_is_layered_like_any_other(rt: HostRuntime) {
    let mut standard = StandardBook::new();
    assert!(rt; standard.ramp(0, 10, 0, 3).is_ok());
    let flat = FlatBook::new(7, 2);
    assert!(rt; beside(flat, &standard, 0, Expected::from(1)) == 13);
    let mut layers = Weighted::over(Sum {
        first: standard,
        second: Weighted::over(flat),
    });
    assert!(rt; layers.weight(0, 3).is_ok() && layers.inner.second.weight(0, 2).is_ok());
    assert!(rt; layers.worth(0, Expected::from(1)) == 60);
    assert!(rt; layers.worth(0, Expected::from(2)) == 51);
    assert!(rt; layers.worth(0, Expected::from(3)) == 0);
    assert!(rt; layers.worth(16, Expected::from(0)) == 0);
    assert!(rt; last_worth(&layers, 0) == 0);
    let high = FlatBook::new(600000, 2);
    assert!(rt; beside(high, &high, 0, Expected::from(2)) == 1000000);
    assert!(rt; last_worth(&FlatBook::new(2000000, u32::MAX), 15) == 1000000);
}

#[test]
fn a_new_kind_has_a_keenest_task(rt: HostRuntime) {
    let mut sheet = Sheet::new();
    assert!(rt; sheet.task(4, 4).is_ok() && sheet.task(1, 2).is_ok() && sheet.task(3, 3).is_ok());
    assert!(rt; keenest(&sheet, &FlatBook::new(7, 2)) == None);
    assert!(rt; sheet.soft(0).is_ok() && sheet.soft(2).is_ok() && sheet.link(1, 2).is_ok());
    assert!(rt; keenest(&sheet, &FlatBook::new(7, 2)) == Some(0));
    assert!(rt; sheet.cut(1, 2).is_ok());
    assert!(rt; keenest(&sheet, &FlatBook::new(7, 2)) == Some(2));
}

#[test]
fn constant_sheets_are_planned_as_the_prover_computes(rt: HostRuntime) {
    assert!(rt; best_of_three() == (Ok(12), [1, 2, 0]));
    assert!(rt; none_of_two() == Err(Refusal::NoOrder));
}

#[test]
fn a_deadline_comes_earlier_as_long_as_some_of_it_is_left(rt: HostRuntime) {
    let mut sheet = Sheet::new();
    assert!(rt; sheet.task(5, 5).is_ok() && sheet.task(2, 2).is_ok() && sheet.hard(0, 7).is_ok());
    assert!(rt; sooner(&mut sheet, 0, 1) == Ok(true));
    assert!(rt; sooner(&mut sheet, 0, 2) == Ok(false));
    assert!(rt; sooner(&mut sheet, 0, 1) == Ok(true));
    assert!(rt; sheet.get(0).is_ok_and(|task| task.kind == Kind::Hard(5)) && sheet.fits());
    assert!(rt; sooner(&mut sheet, 1, 0) == Ok(false));
    assert!(rt; sooner(&mut sheet, 2, 0) == Err(Refusal::UnknownTask));
}

#[test]
fn what_is_stored_is_made_again(rt: HostRuntime) {
    let mut sheet = Sheet::new();
    let mut book = StandardBook::new();
    assert!(rt; sheet.task(1, 1).is_ok() && book.weight(3, 2).is_ok());
    let mut memory = [7; 24];
    assert!(rt; store(&sheet, &book, &mut memory) == Ok((sheet, book)));
    assert!(rt; memory.starts_with(b"0100010001FD\n070302F4\n"));
    assert!(rt; memory.ends_with(&[7, 7]));
    assert!(rt; store(&sheet, &book, &mut [7; 21]) == Err(Refusal::Memory));
}

#[test]
fn equal_books_are_equal_values(rt: HostRuntime) {
    let mut book = StandardBook::new();
    assert!(rt; book.step(3, 9, 1).is_ok() && book.ramp(3, 10, 0, 5).is_ok());
    let before = book;
    assert!(rt; book.ramp(3, 10, 5, 5).is_err());
    assert!(rt; book == before);
    assert!(rt; book.step(3, 12, 1).is_ok());
    assert!(rt; book != before);
    assert!(rt; book.drop_steps(3).is_ok() && book.step(3, 9, 1).is_ok());
    assert!(rt; book == before);
}

// A task of one tick, one of five that must end by the deadline, and a soft one of two. Were a call refused, it would be a sheet
// without tasks, with which no test passes.
fn three(deadline: u32) -> Sheet {
    make_three(deadline).unwrap_or(Sheet::new())
}

fn make_three(deadline: u32) -> Result<Sheet, Refusal> {
    let mut sheet = Sheet::new();
    for ticks in [1, 5, 2] {
        sheet.task(ticks, ticks)?;
    }
    sheet.hard(1, deadline)?;
    sheet.soft(2)?;
    Ok(sheet)
}

// Sixteen soft tasks of one tick, the last of which stands before the first.
fn sixteen() -> Sheet {
    make_sixteen().unwrap_or(Sheet::new())
}

fn make_sixteen() -> Result<Sheet, Refusal> {
    let mut sheet = Sheet::new();
    for t in 0..16 {
        sheet.task(1, 1)?;
        sheet.soft(t)?;
    }
    sheet.link(15, 0)?;
    Ok(sheet)
}

#[test]
fn a_new_kind_is_planned(rt: HostRuntime) {
    let sheet = three(6);
    let mut cells = [0; 8];
    let mut order = [0; 3];
    let in_time = plan(&sheet, &FlatBook::new(7, 7), &mut cells, &mut order);
    assert_eq!(rt; in_time, Ok(7));
    assert!(rt; order == [1, 2, 0]);
    let late_too = plan(&sheet, &FlatBook::new(7, 8), &mut cells, &mut order);
    assert_eq!(rt; late_too, Ok(7));
    assert!(rt; order == [0, 1, 2]);
}

#[test]
fn a_cell_or_a_byte_too_few_is_refused_and_nothing_written(rt: HostRuntime) {
    let sheet = three(4);
    let mut cells = [5; 7];
    let mut order = [9; 3];
    let few_cells = plan(&sheet, &FlatBook::new(7, 7), &mut cells, &mut order);
    assert_eq!(rt; few_cells, Err(Refusal::Memory));
    assert!(rt; cells == [5; 7] && order == [9; 3]);
    let mut cells = [5; 8];
    let mut order = [9; 2];
    let few_bytes = plan(&sheet, &FlatBook::new(7, 7), &mut cells, &mut order);
    assert_eq!(rt; few_bytes, Err(Refusal::Memory));
    assert!(rt; cells == [5; 8] && order == [9; 2]);
}

#[test]
fn what_is_behind_the_last_cell_and_task_stays(rt: HostRuntime) {
    let book = FlatBook::new(7, 7);
    let mut cells = [5; 10];
    let mut order = [9; 5];
    let none = plan(&three(4), &book, &mut cells, &mut order);
    assert_eq!(rt; none, Err(Refusal::NoOrder));
    assert!(rt;
        order == [9; 5] && cells[0] == 0 && cells[7] == 1 && cells[8] == 5 && cells[9] == 5
    );
    let some = plan(&three(6), &book, &mut cells, &mut order);
    assert_eq!(rt; some, Ok(7));
    assert!(rt;
        order == [1, 2, 0, 9, 9] && cells[0] == 8 && cells[7] == 1 && cells[8] == 5 && cells[9] == 5
    );
}

#[test]
fn sixteen_tasks_take_all_cells(rt: HostRuntime) {
    let mut cells = [0; 65536];
    let mut order = [0; 16];
    let total = plan(
        &sixteen(),
        &FlatBook::new(1000000, 15),
        &mut cells,
        &mut order,
    );
    assert_eq!(rt; total, Ok(15000000));
    assert!(rt; order == [1, 2, 3, 4, 5, 6, 7, 8, 9, 10, 11, 12, 13, 14, 15, 0]);
}

#[test]
fn a_trial_leaves_the_tally_whichever_way_it_ends(rt: HostRuntime) {
    let book = FlatBook::new(7, 7);
    let (mut row, begun) = begin(&three(7));
    assert!(rt; begun.is_ok());
    let before = row.tally(&book);
    let mut tally = before;
    assert!(rt; total_with(&row, &book, &mut tally, 2) == 7 && tally == before);
    assert!(rt; reaches(&row, &book, &mut tally, 2, 7) && tally == before);
    assert!(rt; !reaches(&row, &book, &mut tally, 2, 8) && tally == before);
    assert_eq!(rt; total_or_refusal(&row, &book, &mut tally, 2), Ok(7));
    assert!(rt; gain(&row, &book, &mut tally, 2) == 7 && tally == before);
    assert!(rt; choices(&row, &book, &mut tally).index() == 0b111 && tally == before);
    assert!(rt; tally == before && before.total == 0);
    assert!(rt; row.place(1).is_ok());
    let trial = row.trial(&book, &mut tally, 2);
    assert!(rt; trial.refusal() == 0 && trial.tally().total == 7);
    trial.end();
    assert!(rt; tally == before);
}

#[test]
fn a_refused_trial_shows_the_tally_as_it_was(rt: HostRuntime) {
    let book = FlatBook::new(7, 7);
    let (mut row, begun) = begin(&three(6));
    assert!(rt; begun.is_ok() && row.place(0).is_ok());
    let before = row.tally(&book);
    let mut tally = before;
    for (t, number) in [(3, 1), (255, 1), (0, 15), (2, 17)] {
        let trial = row.trial(&book, &mut tally, t);
        assert!(rt; trial.refusal() == number && trial.tally() == before);
    }
    assert!(rt; tally == before);
    assert_eq!(rt; total_or_refusal(&row, &book, &mut tally, 2), Err(17));
    assert!(rt; gain(&row, &book, &mut tally, 2) == 0 && !reaches(&row, &book, &mut tally, 2, 0));
    assert!(rt; total_with(&row, &book, &mut tally, 2) == 0 && tally == before);
    assert!(rt; choices(&row, &book, &mut tally).index() == 0b010 && tally == before);
}

#[test]
fn the_row_beside_ten_takes_no_task(rt: HostRuntime) {
    let (mut row, begun) = begin(&three(4));
    assert_eq!(rt; begun, Err(Refusal::NoOrder));
    for t in 0..=255 {
        assert_eq!(rt; row.place(t), Err(Refusal::UnknownTask));
    }
    let full = row.finish();
    assert!(rt; full.order().is_empty());
    assert!(rt; full.weigh(&FlatBook::new(7, 7)) == 0 && full.weigh(&StandardBook::new()) == 0);
}

#[test]
fn a_row_weighs_by_a_new_kind(rt: HostRuntime) {
    let (mut row, begun) = begin(&three(6));
    assert!(rt; begun.is_ok() && row.place(1).is_ok());
    let full = row.finish();
    assert!(rt; full.order() == [1, 0, 2].as_slice());
    assert!(rt; full.weigh(&FlatBook::new(7, 7)) == 0 && full.weigh(&FlatBook::new(9, 8)) == 9);
}

#[test]
fn a_plan_laid_by_hand_weighs_its_total(rt: HostRuntime) {
    let book = FlatBook::new(7, 7);
    let mut cells = [0; 8];
    let mut order = [9; 4];
    let laid = by_hand(&three(6), &book, &mut cells, &mut order);
    assert_eq!(rt; laid, Ok(7));
    assert!(rt; order == [1, 2, 0, 9]);
    let none = by_hand(&three(4), &book, &mut cells, &mut order);
    assert_eq!(rt; none, Err(Refusal::NoOrder));
    let short = by_hand(&three(6), &book, &mut cells[0..7], &mut order);
    assert_eq!(rt; short, Err(Refusal::Memory));
}

#[test]
fn sixteen_tasks_are_laid_and_weighed(rt: HostRuntime) {
    let (mut row, begun) = begin(&sixteen());
    assert!(rt; begun.is_ok());
    for t in 1..16 {
        assert_eq!(rt; row.place(0), Err(Refusal::NotReady));
        assert!(rt; row.place(t).is_ok());
    }
    assert!(rt; row.place(0).is_ok());
    assert_eq!(rt; row.place(16), Err(Refusal::UnknownTask));
    assert!(rt; row.order() == [1, 2, 3, 4, 5, 6, 7, 8, 9, 10, 11, 12, 13, 14, 15, 0].as_slice());
    assert!(rt; row.count() == 16 && row.placed().index() == 0xffff);
    let full = row.finish();
    assert!(rt; full.count() == 16);
    assert!(rt; full.order() == [1, 2, 3, 4, 5, 6, 7, 8, 9, 10, 11, 12, 13, 14, 15, 0].as_slice());
    assert!(rt; full.weigh(&FlatBook::new(1000000, 15)) == 15000000);
}

#[test]
fn a_row_keeps_the_sheet_on_which_it_began(rt: HostRuntime) {
    let mut sheet = three(6);
    let (mut row, begun) = begin(&sheet);
    assert!(rt; begun.is_ok());
    assert!(rt; sheet.task(3, 3).is_ok() && sheet.link(2, 1).is_ok() && sheet.plain(1).is_ok());
    assert_eq!(rt; row.place(3), Err(Refusal::UnknownTask));
    assert_eq!(rt; row.place(2), Err(Refusal::NoOrderSo));
    assert!(rt; row.count() == 0 && row.placed().index() == 0);
    assert!(rt; row.place(1).is_ok());
    assert!(rt; row.count() == 1 && row.placed().index() == 0b10);
    let full = row.finish();
    assert!(rt; full.count() == 3 && full.order() == [1, 0, 2].as_slice());
}
