// Texts of sheet files, each with the line that must answer it. The lines were worked out apart from the code.
#![tactic(auto)]

pub mod books;
pub mod lines;
pub mod plans;
pub mod sheets;
#[cfg(test)]
mod tests;
