// How names come into scope, and go out of it again.
ghost use Rattle.std.specs.Prelude.{◌≡◌, ℕ, ◌+◌, ◌^◌, ◌<◌, ◌≤◌, List, nat_lt};
ghost use Rattle.names.specs.Scopes.{word_of, count, join, most_names, most_slots, env_of, Sound, Frame};
ghost use Rattle.names.specs.declared.name.Name.{Name as Slot};

use crate::name::{Mark, Name};

// Six of the most names that may be in scope are there from the start.
const MOST_SLOTS: usize = 250;

// Whether one more name may be in scope.
#[tactic(auto, using(crate::proofs::Laws::room_counts))]
pub fn room(mark: Mark) -> bool
    requires { mark.floor ≤ mark.top }
    ensures slots { result ≡ nat_lt mark.top most_slots }
    ensures names { (f : List ℕ) (slots : List Slot) → result ≡ nat_lt (count (env_of f slots mark)) most_names }
{
    mark.top < MOST_SLOTS
}

// Puts a name into the current scope, and takes that many cells for it.
#[tactic(auto, using(crate::proofs::Laws::written_next, crate::proofs::Laws::written_after))]
pub fn join_name(names: &mut [Name], mark: &mut Mark, name: Name, cells: u16)
    requires sound { Sound names.old mark.old }
    requires room { mark.old.top < most_slots }
    requires cells { mark.old.place + cells < 2 ^ 16 }
    ensures env { (f : List ℕ) → env_of f names.new mark.new ≡ join (word_of f name) name.means cells (env_of f names.old mark.old) }
    ensures frame { Frame names.old mark.old names.new mark.new }
    ensures sound { Sound names.new mark.new }
{
    names[mark.top] = name;
    mark.top += 1;
    mark.place += cells;
}

// A scope while it is open. `outer` is the mark at its start, which is put back however the scope is left.
pub struct Scope<'a> {
    pub mark: &'a mut Mark,
    pub outer: Mark,
}

impl Drop for Scope<'_> {
    fn drop(self)
        ensures { self.exit.0.now ≡ self.entry.outer }
    {
        *self.mark = self.outer;
        let Scope { mark: _, outer: _ } = self;
    }
}
