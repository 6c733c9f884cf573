// Kinds, operators and runes are listed, and text parts lie in the text.
ghost use Rattle.std.specs.Prelude.{◌≡◌};
ghost use Rattle.std.specs.Result.{result_err};
ghost use Rattle.records.specs.Records.{listed_kind, text_by};
ghost use Rattle.rules.specs.First.{First};
ghost use Rattle.rules.specs.Rules.{kind_listed, text_inside};

use crate::first::all_keep;
use records::{Opened, Place, Rec, listed_kind, text_fits};

#[tactic(auto, unfolding(crate::specs::Rules::kind_listed))]
fn kind_listed(place: Place) -> bool
    ensures { result ≡ kind_listed place.entry.over.file.now place.entry.r }
{
    listed_kind(place.fields()).is_some()
}

// Whether each record's kind, operator and rune are listed, or else the lowest of which that is not so.
pub fn all_listed(s: Opened) -> Result<(), u16>
    ensures { First (kind_listed s.entry.file.now) 1 s.entry.n (result_err result) }
{
    all_keep(s.places(1), kind_listed)
}

fn text_by(t: u32, rec: Rec) -> bool
    ensures { result ≡ text_by t rec (listed_kind rec) }
{
    match listed_kind(rec) {
        Some(kind) => text_fits(t, rec, kind.about().form),
        None => true,
    }
}

#[tactic(auto, unfolding(crate::specs::Rules::text_inside))]
fn text_inside(place: Place) -> bool
    ensures { result ≡ text_inside place.entry.over.file.now place.entry.r }
{
    text_by(place.over.t, place.fields())
}

// Whether each text part lies in the text and no name is empty, or else the lowest record of which that is not so.
pub fn all_inside(s: Opened) -> Result<(), u16>
    ensures { First (text_inside s.entry.file.now) 1 s.entry.n (result_err result) }
{
    all_keep(s.places(1), text_inside)
}
