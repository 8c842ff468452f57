// One sheet's week: what the RF group, the bus group, and the RF group again call on the sheet and on its book, and the moves of a
// row that is laid by hand.
use book::Call::{Ramp, Step, Weight};
use sheet::Call::{Cut, Hard, Link, Soft, Task};

pub const NAMES: [&str; 6] = [
    "blank output",
    "move attenuator",
    "load level",
    "unblank output",
    "redraw panel",
    "reply on bus",
];

pub struct Group {
    pub name: &'static str,
    // What it calls on the sheet, and then on the book.
    pub tasks: &'static [sheet::Call],
    pub curves: &'static [book::Call],
}

// The output is blanked before the attenuator and the level change, and unblanked after both. The panel should follow soon.
pub const RF_GROUP: Group = Group {
    name: "RF group",
    tasks: &[
        Task(20, 40),
        Task(150, 400),
        Task(60, 90),
        Task(15, 25),
        Task(200, 800),
        Link(0, 1),
        Link(0, 2),
        Link(1, 2),
        Link(1, 3),
        Link(2, 3),
        Link(3, 4),
        Hard(0, 60),
        Hard(3, 600),
        Soft(4),
    ],
    curves: &[Ramp(4, 600, 400, 1400)],
};

// The reply waits for the level, and the panel no longer for the output. The reply is worth most before the bus polls again.
pub const BUS_GROUP: Group = Group {
    name: "Bus group",
    tasks: &[Task(80, 121), Link(2, 5), Cut(3, 4), Link(5, 0), Soft(5)],
    curves: &[
        Step(5, 450, 300),
        Step(5, 700, 200),
        Step(5, 600, 100),
        Weight(5, 2),
    ],
};

#[derive(Clone, Copy)]
pub enum Move {
    Place(u8),
    Try(u8),
}

// Unblanking must end in time, so neither the panel nor the reply may be placed before it. Behind it both may, and the row takes
// the panel, where the reply would earn more.
pub const BY_HAND: &[Move] = &[
    Move::Place(3),
    Move::Place(0),
    Move::Place(0),
    Move::Place(4),
    Move::Place(9),
    Move::Place(1),
    Move::Place(2),
    Move::Place(5),
    Move::Place(3),
    Move::Try(5),
    Move::Place(4),
];

// The output is to be back sooner, by a little more than is left of its deadline.
pub const SOONER: Group = Group {
    name: "RF group, a day later",
    tasks: &[Hard(3, 550)],
    curves: &[],
};
