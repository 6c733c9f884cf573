// The first record that breaks a rule.
ghost use Rattle.std.specs.Prelude.{◌≡◌, ℕ, Bool};
ghost use Rattle.std.specs.Result.{result_err};
ghost use Rattle.records.specs.declared.place.Place.{Place as Spot};
ghost use Rattle.rules.specs.First.{First};

use records::{Place, Places};

// Whether all of these records keep the rule, or else the lowest that does not.
pub fn all_keep<'a, F: Fn(Place<'a>) -> bool>(places: Places<'a>, rule: F) -> Result<(), u16>
    requires { F.IsAlwaysCallable rule }
    ensures { (holds : ℕ → Bool) → ((p : Spot) (b : Bool) → p.over ≡ places.entry.over → F.post rule p b → holds p.r ≡ b) → First holds places.entry.next places.entry.over.n (result_err result) }
{
    for place in places {
        if !rule(place) {
            return Err(place.r);
        }
    }
    Ok(())
}
