// How many different kind numbers the records of a file have.
ghost use Rattle.std.specs.Prelude.{◌≡◌, ℕ, ◌<◌, true, false, count_by, slice_index_or, slice_set};
ghost use Rattle.records.specs.Bytes.{rec_at};
ghost use Rattle.summary.specs.Summaries.{appears, kind_count};

use records::{Opened, Place};

// Marks the kind number of a record: it is a byte.
fn mark_kind(place: Place, seen: &mut [bool; 256])
    ensures { seen.new ≡ slice_set seen.old (rec_at place.entry.over.file.now place.entry.r).kind true }
{
    seen[usize::from(place.fields().kind)] = true;
}

// Which kind numbers the records have.
fn kinds_seen(s: Opened) -> [bool; 256]
    ensures { (k : ℕ) → k < 256 → slice_index_or result k false ≡ appears s.entry.file.now s.entry.n k }
{
    let mut seen = [false; 256];
    for place in s.places(1) {
        mark_kind(place, &mut seen);
    }
    seen
}

fn count_marks(seen: &[bool; 256]) -> u16
    ensures { result ≡ count_by (λ mark. mark) seen.now }
{
    seen.iter().filter(|mark| **mark).count() as u16
}

pub fn count_kinds(s: Opened) -> u16
    ensures { result ≡ kind_count s.entry.file.now }
{
    count_marks(&kinds_seen(s))
}
