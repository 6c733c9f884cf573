// The names in scope while a script is checked. They stand in a list of slots that the caller lends, beside a mark
// that says how many are in use.
#![tactic(auto)]

mod name;
mod scope;
mod seek;
mod view;

pub use name::{Mark, Meaning, Name};
pub use scope::{Scope, join_name, room};
pub use seek::{find, predeclared_of};
pub use view::View;
