// Which record of a script stands deepest.
ghost use Rattle.std.specs.Prelude.{◌≡◌, if◌then◌else◌, nat_lt};
ghost use Rattle.summary.specs.Summaries.{Deepest};

use rules::{Linked, start_depths};
use script::Script;

// A record and how deep it stands.
#[derive(Clone, Copy, Debug, PartialEq, Eq)]
pub struct Level {
    pub at: u16,
    pub depth: u8,
}

// The deeper of two, the first where they are alike (`max_by_key` gives the last).
fn deeper(one: Level, two: Level) -> Level
    ensures { result ≡ (if nat_lt one.depth two.depth then two else one) }
{
    if two.depth > one.depth { two } else { one }
}

// The lowest of the records that stand deepest. Links lead up, so a record's depth is known when it is passed.
pub fn deepest_level(s: Script) -> Level
    ensures { Deepest s.entry.over.file.now s.entry.over.n result.at result.depth }
{
    let linked = Linked { over: s.over };
    let mut depths = start_depths();
    let mut best = Level { at: 1, depth: 1 };
    for place in s.over.places(1) {
        let depth = depths[usize::from(place.r)];
        best = deeper(best, Level { at: place.r, depth });
        linked.pass_depth(place, &mut depths);
    }
    best
}
