// What a script file that has been read amounts to: how many records and kinds of records it has, how deep they
// go and how much text there is.
#![tactic(auto)]

ghost use Rattle.summary.specs.Summaries.{Summarizes};

mod deepest;
mod kinds;
mod line;

use deepest::deepest_level;
use kinds::count_kinds;
pub use line::summary_line;
use script::Script;

#[derive(Clone, Copy, Debug, PartialEq, Eq)]
pub struct Summary {
    pub records: u16,
    // how many different kind numbers the records have
    pub kinds: u16,
    // the lowest of the records that stand deepest, and how deep it stands
    pub deepest: u16,
    pub depth: u8,
    // bytes of text
    pub text: u32,
}

pub fn summarize(s: Script) -> Summary
    ensures { Summarizes s.entry.over.file.now result }
{
    let level = deepest_level(s);
    Summary {
        records: s.over.n,
        kinds: count_kinds(s.over),
        deepest: level.at,
        depth: level.depth,
        text: s.over.t,
    }
}
