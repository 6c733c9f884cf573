// What an expression is checked with.
ghost use Rattle.std.specs.Prelude.{◌≤◌, length};

use crate::name::{Mark, Name};
use script::Script;

// The script, and the names in scope at some place of it.
#[derive(Clone, Copy)]
pub struct View<'f, 'n> {
    pub script: Script<'f>,
    pub names: &'n [Name],
    pub mark: Mark,
    ghost slots: { mark.top ≤ length names.now },
    ghost floor: { mark.floor ≤ mark.top },
}
