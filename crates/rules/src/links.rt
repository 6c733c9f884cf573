// Links lead up, and each record from the second on is linked exactly once.
ghost use Rattle.std.specs.Prelude.{◌≡◌, ℕ, ◌<◌, ◌≤◌, min, length, ◌==◌, slice_index, IfOk};
ghost use Rattle.std.specs.Result.{result_err};
ghost use Rattle.rules.specs.First.{First};
ghost use Rattle.rules.specs.Links.{lead_up, links_to, linked_once, counted};

use crate::first::all_keep;
use crate::linked::Linked;
use records::{Opened, Place, RECORD_SLOTS, links_up};

// Whether the links of the record lead up.
fn leads_up(place: Place) -> bool
    ensures { result ≡ lead_up place.entry.over.file.now place.entry.r }
{
    links_up(place.over.n, place.r, place.fields())
}

// Whether all links lead up, or else the lowest record with one that does not.
pub fn all_lead_up(s: Opened) -> Result<(), u16>
    ensures { First (lead_up s.entry.file.now) 1 s.entry.n (result_err result) }
{
    all_keep(s.places(1), leads_up)
}

impl<'a> Linked<'a> {
    // The file, where all its links lead up, or else the lowest record with one that does not.
    pub fn new(s: Opened<'a>) -> Result<Linked<'a>, u16>
        ensures file { IfOk result (λ linked. linked.over ≡ s.entry) }
        ensures links { First (lead_up s.entry.file.now) 1 s.entry.n (result_err result) }
    {
        all_lead_up(s)?;
        Ok(Linked { over: s })
    }
}

// One more link to the record `k`; 255 stands for that many and more.
fn count_link(counts: &mut [u8; RECORD_SLOTS], k: u16)
    requires { k < 2048 }
    ensures { counts.new ≡ counted counts.old k }
{
    let k = usize::from(k);
    counts[k] = counts[k].saturating_add(1);
}

// How many links lead to each record. A slot for each record, since nothing is allocated.
fn count_links(s: Linked) -> [u8; RECORD_SLOTS]
    ensures { (k : ℕ) → k < 2048 → slice_index result k ≡ min 255 (links_to s.entry.over.file.now s.entry.over.n k) }
{
    let mut counts = [0; RECORD_SLOTS];
    for place in s.over.places(1) {
        let rec = place.fields();
        count_link(&mut counts, rec.first);
        count_link(&mut counts, rec.next);
    }
    counts
}

// Whether each record from the second on is linked exactly once, or else the lowest that is not.
pub fn all_linked_once(s: Linked) -> Result<(), u16>
    ensures { First (linked_once s.entry.over.file.now) 2 s.entry.over.n (result_err result) }
{
    let counts = count_links(s);
    all_keep(
        s.over.places(2),
        |place|
            ensures { result ≡ (slice_index counts place.entry.r == 1) }
        { counts[usize::from(place.r)] == 1 },
    )
}
