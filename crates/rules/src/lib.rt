// The rules that the records of a file are held to: links, depth, kinds, children and text.
#![tactic(auto)]

ghost use Rattle.rules.specs.Rules.{RecordsVerdict};

mod children;
mod depth;
mod first;
mod grammar;
mod linked;
mod links;
mod words;

use children::all_have_children;
use depth::all_shallow;
pub use depth::start_depths;
use faults::FileFault;
pub use linked::Linked;
use links::all_linked_once;
use records::Opened;
use words::{all_inside, all_listed};

// The first rule that a record of the file breaks, and the lowest record that breaks it: one pass a rule.
pub fn keep_rules(s: Opened) -> Result<(), FileFault>
    ensures { RecordsVerdict s.entry.file.now s.entry.n result }
{
    let linked = Linked::new(s).map_err(FileFault::Link)?;
    all_linked_once(linked).map_err(FileFault::Linked)?;
    all_shallow(linked).map_err(FileFault::Deep)?;
    all_listed(s).map_err(FileFault::Unlisted)?;
    all_have_children(s).map_err(FileFault::Children)?;
    all_inside(s).map_err(FileFault::Text)
}
