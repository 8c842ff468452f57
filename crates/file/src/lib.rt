// Sheet files: the lines of a file, what a line says, what a file makes, what is saved, and the names of tasks.
#![tactic(auto)]

mod call;
mod fault;
mod frame;
mod laws;
mod line;
mod loading;
mod naming;
mod pieces;
mod reading;
mod saving;
mod writer;

pub use fault::Fault;
pub use frame::Frame;
pub use laws::{lines_stand, loads_stand, names_lie, reloaded, saved_loads, saved_reads};
pub use loading::{LONGEST, MOST_READ, load, load_new};
pub use naming::name;
pub use reading::{Reading, read};
pub use saving::{ROOM, save};
pub use writer::write_line;
