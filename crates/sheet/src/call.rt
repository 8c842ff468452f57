// A call that changes a sheet, as a value: lists of calls are printed, and the prover computes with them.
use std::fmt;

#[derive(Clone, Copy, Debug, PartialEq, Eq)]
pub enum Call {
    // Adds a plain task of these least and most durations.
    Task(u32, u32),
    // Sets the durations of a task.
    Time(u8, u32, u32),
    // Puts the first task before the second.
    Link(u8, u8),
    // Takes the direct link from the first task to the second away.
    Cut(u8, u8),
    // Marks a task as hard, to end by the deadline.
    Hard(u8, u32),
    // Marks a task as soft.
    Soft(u8),
    // Takes the mark off a task.
    Plain(u8),
}

impl fmt::Display for Call {
    ghost use Rattle.std.specs.Prelude.{Some};
    ghost use Rattle.sheet.specs.Texts.{call_text};

    ghost output = { λ call. Some (call_text call) };

    fn fmt<W: fmt::Write>(&self, f: &mut fmt::Formatter<W>) -> fmt::Result {
        match *self {
            Call::Task(min, max) => write!(f, "task {min} {max}"),
            Call::Time(t, min, max) => write!(f, "time {t} {min} {max}"),
            Call::Link(a, b) => write!(f, "link {a} {b}"),
            Call::Cut(a, b) => write!(f, "cut {a} {b}"),
            Call::Hard(t, deadline) => write!(f, "hard {t} {deadline}"),
            Call::Soft(t) => write!(f, "soft {t}"),
            Call::Plain(t) => write!(f, "plain {t}"),
        }
    }
}
