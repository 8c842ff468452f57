// A call that changes a book, as a value: lists of calls are printed, and the prover computes with them.
use std::fmt;

#[derive(Clone, Copy, Debug, PartialEq, Eq)]
pub enum Call {
    // Gives a task a ramp: its peak, its knee and its foot.
    Ramp(u8, u32, u32, u32),
    // Adds a step behind the last one of a task: its until and its worth.
    Step(u8, u32, u32),
    // Takes all steps of a task away.
    DropSteps(u8),
    // Sets the weight of a task.
    Weight(u8, u32),
}

impl fmt::Display for Call {
    ghost use Rattle.std.specs.Prelude.{Some};
    ghost use Rattle.book.specs.Texts.{call_text};

    ghost output = { λ call. Some (call_text call) };

    fn fmt<W: fmt::Write>(&self, f: &mut fmt::Formatter<W>) -> fmt::Result {
        match *self {
            Call::Ramp(t, peak, knee, foot) => write!(f, "ramp {t} {peak} {knee} {foot}"),
            Call::Step(t, until, worth) => write!(f, "step {t} {until} {worth}"),
            Call::DropSteps(t) => write!(f, "drop_steps {t}"),
            Call::Weight(t, weight) => write!(f, "weight {t} {weight}"),
        }
    }
}
