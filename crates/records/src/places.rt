// The ways to the records of a file.
ghost use Rattle.std.specs.Prelude.{◌≡◌, ◌+◌, ◌-◌, ◌≤◌};
ghost use Rattle.std.specs.Iterator.{at_most};
ghost use Rattle.records.specs.Bytes.{rec_at};
ghost use Rattle.records.specs.Trees.{above};
ghost use Rattle.records.specs.Places.{Found, Starts, Yields, Begins, Follows};

use crate::bytes::Rec;
use crate::kind::Kind;
use crate::opened::Opened;
use crate::place::{Chain, Place, Places};
use crate::record::Node;

impl Place<'_> {
    pub fn fields(self) -> Rec
        ensures { result ≡ rec_at self.entry.over.file.now self.entry.r }
    {
        self.over.fields(self.r)
    }
}

impl<'a> Opened<'a> {
    // The record `r`, where the file has one of that number.
    pub fn place(self, r: u16) -> Option<Place<'a>>
        ensures { Found self.entry r result }
    {
        if r == 0 || r > self.n {
            return None;
        }
        Some(Place { over: self, r })
    }

    // The records from the number `from` on, lowest first; from 0 on they are all of them, as from 1 on.
    pub fn places(self, from: u16) -> Places<'a>
        ensures { Starts self.entry from result }
    {
        Places {
            over: self,
            next: from.max(1),
        }
    }

    // The record `first` and those that follow it, by their kinds: the children of a record whose first child it is.
    pub fn chain(self, first: u16) -> Chain<'a>
        ensures { Begins self.entry first result }
    {
        Chain {
            over: self,
            at: first,
        }
    }
}

impl<'a> Iterator for Places<'a> {
    type Item = Place<'a>;

    ghost next_gives = { Yields };

    ghost remaining = { λ s. at_most (s.over.n + 1 - s.next) };

    fn next(&mut self) -> Option<Place<'a>> {
        let place = self.over.place(self.next)?;
        self.next += 1;
        Some(place)
    }
}

impl Iterator for Chain<'_> {
    type Item = (u16, Node<Kind>);

    ghost next_gives = { Follows };

    ghost remaining = { λ s. at_most (above s.at) };

    #[inline(always)]
    fn next(&mut self) -> Option<(u16, Node<Kind>)> {
        let at = self.at;
        let shape = self.over.shape(at)?;
        self.at = shape.next;
        Some((at, shape))
    }
}
