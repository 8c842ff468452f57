// The tasks that a sheet is made of, with no rule between them.
ghost use Rattle.std.specs.Prelude.{◌≡◌, ◌+◌, ◌-◌, ◌*◌, ◌<◌, ◌≤◌, [], ◌∷◌, ◌++◌, drop, length, replicate, set};
ghost use Rattle.std.specs.Cmp.Rules.{comparing};
ghost use Rattle.std.proofs.Common.{rules};
ghost use Rattle.sheet.specs.Calls.{new_task};
ghost use Rattle.sheet.specs.Margins.{deadline_of, due_by};
ghost use Rattle.sheet.specs.Tables.{blank, expected_of, maximum_of, task_of};

use common::{Exact, Expected, MOST, Maximum, TaskSet};
use std::fmt;

// How a task's end counts.
#[derive(Clone, Copy, Debug, PartialEq, Eq)]
pub enum Kind {
    // It does not.
    Plain,
    // The earlier, the better: a book says how much it is worth.
    Soft,
    // By this deadline, in ticks, at maximum durations.
    Hard(u32),
}

// How long a task takes, how its end counts, and what stands before it.
#[derive(Clone, Copy, Debug, PartialEq, Eq)]
pub struct Task {
    pub min: u16,
    pub max: u16,
    pub kind: Kind,
    // The tasks linked to it: its direct predecessors.
    pub before: TaskSet,
}

// At most sixteen tasks: the first `len` places hold them, and the others are blank. No heap is used, and a sheet is copied
// whole. A generic list, for the steps of a book too, would need a trait for what is blank, and `Clone` by hand, for two
// methods of a line. An `impl Model` would keep a sheet that is passed by value from being used again.
#[derive(Clone, Copy, Debug, PartialEq, Eq)]
pub struct Table {
    len: u8,
    tasks: [Task; 16],
    ghost whole: { length tasks ≡ 16 },
    ghost few: { len ≤ 16 },
    ghost clear: { drop len tasks ≡ replicate (16 - len) blank },
}

impl Kind {
    // The deadline of a hard kind.
    pub fn deadline(self) -> Option<u32>
        ensures { result ≡ deadline_of self }
    {
        match self {
            Kind::Hard(deadline) => Some(deadline),
            _ => None,
        }
    }

    // Whether this is hard, with a deadline of at most this one.
    pub fn due_by(self, deadline: u32) -> bool
        ensures { result ≡ due_by deadline self }
    {
        self.deadline().is_some_and(|last| last <= deadline)
    }
}

impl fmt::Display for Kind {
    ghost use Rattle.std.specs.Fmt.{padded};
    ghost use Rattle.std.specs.Prelude.{Some};
    ghost use Rattle.sheet.specs.Texts.{kind_text};

    ghost output = { λ kind. Some (kind_text kind) };

    ghost styled_output = { λ kind style. Some (padded style (kind_text kind)) };

    fn fmt<W: fmt::Write>(&self, f: &mut fmt::Formatter<W>) -> fmt::Result {
        f.pad(match self {
            Kind::Plain => "plain",
            Kind::Soft => "soft",
            Kind::Hard(_) => "hard",
        })
    }
}

impl Task {
    const BLANK: Task = Task {
        min: 0,
        max: 0,
        kind: Kind::Plain,
        before: TaskSet::EMPTY,
    };

    // A plain task to which no link leads.
    pub(crate) fn plain(min: u16, max: u16) -> Task
        ensures { result ≡ new_task min max }
    {
        Task {
            min,
            max,
            ..Task::BLANK
        }
    }

    // The midpoint of the durations, rounded down.
    #[tactic(auto, unfolding(crate::specs::Tables::expected_of))]
    pub fn expected(&self) -> Expected
        ensures value { result.0 ≡ expected_of self.now }
        ensures midpoint { (2 * result.0 ≤ self.now.min + self.now.max) × (self.now.min + self.now.max < 2 * result.0 + 2) }
    {
        Expected::from((u32::from(self.min) + u32::from(self.max)) / 2)
    }

    // How long the task takes at most.
    #[tactic(auto, unfolding(crate::specs::Tables::maximum_of))]
    pub fn maximum(&self) -> Maximum
        ensures { result.0 ≡ maximum_of self.now }
    {
        Maximum::from(u32::from(self.max))
    }
}

impl Table {
    ghost use Rattle.sheet.specs.Lists.{listed};

    pub(crate) fn empty() -> Table
        ensures { listed result ≡ [] }
    {
        Table {
            len: 0,
            tasks: [Task::BLANK; 16],
        }
    }

    // The bound is in the type; said once more, the compiler knows it too, and loops over the tasks need no test of their numbers.
    pub(crate) fn len(&self) -> u8
        ensures { result ≡ length (listed self.now) }
    {
        self.len.min(MOST)
    }

    pub(crate) fn tasks(&self) -> &[Task]
        ensures { result.now ≡ listed self.now }
    {
        &self.tasks[0..usize::from(self.len())]
    }

    pub(crate) fn at(&self, t: u8) -> Task
        requires { t < length (listed self.now) }
        ensures { result ≡ task_of (listed self.now) t }
    {
        self.tasks()[usize::from(t)]
    }

    #[tactic(auto, using(crate::proofs::Tables::placing))]
    pub(crate) fn push(&mut self, task: Task)
        requires { length (listed self.old) < 16 }
        ensures { listed self.new ≡ listed self.old ++ task ∷ [] }
    {
        self.tasks[usize::from(self.len)] = task;
        self.len += 1;
    }

    // Puts the task in place of task t.
    #[tactic(auto, using(crate::proofs::Tables::placing))]
    pub(crate) fn put(&mut self, t: u8, task: Task)
        requires { t < length (listed self.old) }
        ensures { listed self.new ≡ set (listed self.old) t task }
    {
        self.tasks[usize::from(t)] = task;
    }
}

impl Exact for Kind {
    ghost exact = { Prim.search (comparing, rules) };
}

impl Exact for Task {
    ghost exact = { Prim.search (comparing, rules) };
}

impl Exact for Table {
    ghost use Rattle.sheet.specs.EqualLaws.{tables_exact};

    ghost exact = { tables_exact };
}
