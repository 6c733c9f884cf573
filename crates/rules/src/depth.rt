// No record stands deeper than a script may go.
ghost use Rattle.std.specs.Prelude.{◌≡◌, ◌<◌, nat_lt, slice_index};
ghost use Rattle.std.specs.Result.{result_err};
ghost use Rattle.rules.specs.First.{First};
ghost use Rattle.rules.specs.Depths.{most_depth, shallow, start, deepened, passed};

use crate::linked::Linked;
use records::{Place, RECORD_SLOTS};

pub const MOST_DEPTH: u8 = 64;

fn deep(d: u8) -> bool
    ensures { result ≡ nat_lt most_depth d }
{
    d > MOST_DEPTH
}

// The depths before any link is followed: the first record stands at 1, nothing is known of the others. A slot for each
// record, since nothing is allocated.
pub fn start_depths() -> [u8; RECORD_SLOTS]
    ensures { result ≡ start }
{
    let mut depths = [0; RECORD_SLOTS];
    depths[1] = 1;
    depths
}

// The record `k` stands at the depth `d` or deeper.
fn deepen(depths: &mut [u8; RECORD_SLOTS], k: u16, d: u8)
    requires { k < 2048 }
    ensures { depths.new ≡ deepened depths.old k d }
{
    let k = usize::from(k);
    depths[k] = depths[k].max(d);
}

impl<'a> Linked<'a> {
    // One of its records passes its depth on to the records that it links to.
    pub fn pass_depth(self, place: Place<'a>, depths: &mut [u8; RECORD_SLOTS])
        requires here { place.over ≡ self.over }
        requires low { slice_index depths.old place.r < 255 }
        ensures { depths.new ≡ passed self.entry.over.file.now place.entry.r depths.old }
    {
        let d = depths[usize::from(place.r)];
        let rec = place.fields();
        deepen(depths, rec.first, d + 1);
        deepen(depths, rec.next, d);
    }
}

// Whether no record stands too deep, or else the lowest that does.
pub fn all_shallow(s: Linked) -> Result<(), u16>
    ensures { First (shallow s.entry.over.file.now) 1 s.entry.over.n (result_err result) }
{
    let mut depths = start_depths();
    for place in s.over.places(1) {
        if deep(depths[usize::from(place.r)]) {
            return Err(place.r);
        }
        s.pass_depth(place, &mut depths);
    }
    Ok(())
}
