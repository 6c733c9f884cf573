// Stacks of items that can be copied. A stack lies in a slice that its caller lends, so its room is fixed and nothing is allocated.
// The contracts say all that the slice holds, the items in use and what stands past them; `lent` shows that its caller
// still knows it once the stack is gone.
#![tactic(auto)]

mod lent;
mod stack;

pub use stack::{Full, Stack};
