// Reads a sheet file from the standard input, and prints the line that answers it.
#![tactic(auto)]

use answer::{Failure, answer_stream};
use std::io;

fn main(rt: HostRuntime) -> Result<(), Failure> {
    answer_stream(rt.alloc(), &mut rt.reader(), &mut io::writer(&rt))
}
