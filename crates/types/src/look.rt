// What the type table says of a type's number. A table is a lent slice of entries; a struct round it would have the same
// functions under one more name.
ghost use Rattle.std.specs.Prelude.{◌≡◌};
ghost use Rattle.types.specs.Table.{entry_at, cells_of, shape_of};

use crate::kind::{EntryKind, Home};
use crate::{Entry, Note, Shape};

// What stands where there is no entry, so that every number has one.
pub const NO_ENTRY: Entry = Entry {
    kind: EntryKind::Nothing,
    cells: 0,
    of: 0,
    at: 0,
    len: 0,
};

// A note that says nothing.
pub const BLANK: Note = Note {
    ty: 0,
    home: Home::Nowhere,
    place: 0,
};

// The entry of a type's number, or NO_ENTRY where there is none.
pub fn entry_at(table: &[Entry], t: u16) -> Entry
    ensures { result ≡ entry_at table.now t }
{
    t.checked_sub(1)
        .and_then(|i| table.get(i as usize))
        .copied()
        .unwrap_or(NO_ENTRY)
}

// How many cells a value of the type takes.
pub fn cells_of(table: &[Entry], t: u16) -> u16
    ensures { result ≡ cells_of table.now t }
{
    entry_at(table, t).cells
}

// What kind of type the number stands for.
pub fn shape_of(table: &[Entry], t: u16) -> Shape
    ensures { result ≡ shape_of table.now t }
{
    let entry = entry_at(table, t);
    match entry.kind {
        EntryKind::Int => Shape::Int,
        EntryKind::Bool => Shape::Bool,
        EntryKind::Rune => Shape::Rune,
        EntryKind::Text => Shape::Text,
        EntryKind::Slice => Shape::Slice(entry.of),
        EntryKind::Struct => Shape::Struct(entry.of),
        EntryKind::Nothing | EntryKind::Field | EntryKind::Other(_) => Shape::Other,
    }
}
