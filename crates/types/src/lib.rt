// The type table and the notes: what a check leaves for a run.
#![tactic(auto)]

mod classes;
mod fields;
mod kind;
mod look;
mod seek;

pub use fields::comparable;
pub use kind::{EntryKind, Home};
pub use look::{BLANK, NO_ENTRY, cells_of, entry_at, shape_of};
pub use seek::find_slice;

// A note on a record: its type, and for a name where it is at home and its place there (1 for true, 0 for false). Zero
// where nothing is said: notes are lent, and all of one size.
#[derive(Clone, Copy, Debug, PartialEq, Eq)]
pub struct Note {
    pub ty: u16,
    pub home: Home,
    pub place: u16,
}

// An entry of the type table. Entries count from 1; the fields of a struct follow it. They are lent, and all of one size:
// what a kind has no use for is 0.
#[derive(Clone, Copy, Debug, PartialEq, Eq)]
pub struct Entry {
    pub kind: EntryKind,
    pub cells: u16,
    pub of: u16,
    pub at: u32,
    pub len: u16,
}

// What kind of type a number stands for: a slice by its elements' type, a struct by its count of fields.
#[derive(Clone, Copy, Debug, PartialEq, Eq)]
pub enum Shape {
    Int,
    Bool,
    Rune,
    Text,
    Slice(u16),
    Struct(u16),
    Other,
}

// The numbers of the predeclared types: a type goes by the number of its entry, and 0 by none.
pub const INT_TYPE: u16 = 1;

pub const BOOL_TYPE: u16 = 2;

pub const RUNE_TYPE: u16 = 3;

pub const STRING_TYPE: u16 = 4;
