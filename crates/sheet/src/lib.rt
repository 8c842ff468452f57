// Task sheets: durations, links and deadlines of at most sixteen tasks, the rules that every sheet keeps, and its margins.
#![tactic(auto)]

mod call;
mod laws;
mod sheet;
mod table;

pub use call::Call;
pub use laws::{calls_stand, equal_tables, rules_stand};
pub use sheet::{Load, Sheet, equal_sheets};
pub use table::{Kind, Task};
