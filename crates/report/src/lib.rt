// The lines of text that the programs write. A line is made in a fixed array, so nothing here allocates.
#![tactic(auto)]

mod handed;
mod line;
mod verdict;

pub use line::Line;
pub use verdict::verdict_line;
