// A record as it is handed on.
ghost use Rattle.std.specs.Prelude.{◌≡◌};

use crate::bytes::Rec;
use crate::kind::Kind;

// What a record says: its kind with a number, with a word that stays part of the file's bytes, or alone.
#[derive(Clone, Copy)]
pub enum Record<'a> {
    Number(Kind, i64),
    Word(Kind, &'a [u8]),
    Bare(Kind),
}

// A record with its links: the first child and the next child of its parent, 0 for none. The record is all that it
// says (`Record`), or its kind alone (`Kind`). A link stays a number: whatever it is, a look-up there answers an
// `Option`, so a link that were an `Option` too would be taken apart only to be looked up.
#[derive(Clone, Copy, Debug, PartialEq, Eq)]
pub struct Node<T> {
    pub record: T,
    pub first: u16,
    pub next: u16,
}

impl<T> Node<T> {
    // With the links of these fields.
    pub fn of(record: T, rec: Rec) -> Node<T>
        ensures record { result.«record» ≡ «record» }
        ensures first { result.first ≡ rec.first }
        ensures next { result.next ≡ rec.next }
    {
        Node {
            record,
            first: rec.first,
            next: rec.next,
        }
    }
}

// The fields of a record whose kind is listed.
#[derive(Clone, Copy, Debug, PartialEq, Eq)]
pub struct Kinded {
    pub rec: Rec,
    pub kind: Kind,
}
