// What is printed in more than one place: a value or a dash, a refusal, and a task's worth.
ghost use Rattle.std.specs.Fmt.{padded};
ghost use Rattle.std.specs.Option.{option_map_or};
ghost use Rattle.std.specs.Prelude.{Some, codes};

use book::{Book, StandardBook};
use common::{Expected, Refusal};
use sheet::Kind;
use std::{fmt, io};

// A value, or a dash where it is absent.
#[derive(Clone, Copy)]
pub struct OrDash<T>(pub Option<T>);

impl<T: fmt::Display> fmt::Display for OrDash<T> {
    ghost output = { λ x. option_map_or T.output x.0 (Some (codes "-")) };

    ghost styled_output = { λ x style.
        option_map_or (λ value. T.styled_output value style) x.0 (Some (padded style (codes "-"))) };

    fn fmt<W: fmt::Write>(&self, f: &mut fmt::Formatter<W>) -> fmt::Result {
        match &self.0 {
            Some(value) => value.fmt(f),
            None => f.pad("-"),
        }
    }
}

// What task t is worth if it ends at the time; only a soft task is worth anything.
pub fn worth(book: &StandardBook, t: u8, kind: Kind, at: Expected) -> OrDash<u32> {
    OrDash(matches!(kind, Kind::Soft).then(|| book.worth(t, at)))
}

pub fn print_refusal(rt: &impl Print, refusal: Refusal) -> io::Result<()> {
    println!(rt; "refused with {}, {refusal}", refusal.number())
}
