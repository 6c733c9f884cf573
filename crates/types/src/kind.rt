// What an entry is for, and where a name is at home. Each goes by a number outside the unit.
ghost use Rattle.std.specs.Prelude.{◌≡◌};
ghost use Rattle.types.specs.Table.{number_of_kind, number_of_home, KindFrom, HomeFrom};

// What an entry of the type table is for: a type, or a field of the struct before it.
#[derive(Clone, Copy, Debug, PartialEq, Eq)]
pub enum EntryKind {
    Nothing,
    Int,
    Bool,
    Rune,
    Text,
    Slice,
    Struct,
    Field,
    Other(u8),
}

impl From<u8> for EntryKind {
    ghost from_gives = { KindFrom };

    fn from(number: u8) -> EntryKind {
        match number {
            0 => EntryKind::Nothing,
            1 => EntryKind::Int,
            2 => EntryKind::Bool,
            3 => EntryKind::Rune,
            4 => EntryKind::Text,
            5 => EntryKind::Slice,
            6 => EntryKind::Struct,
            7 => EntryKind::Field,
            _ => EntryKind::Other(number),
        }
    }
}

impl From<EntryKind> for u8 {
    ghost from_gives = { λ kind number. number ≡ number_of_kind kind };

    fn from(kind: EntryKind) -> u8 {
        match kind {
            EntryKind::Nothing => 0,
            EntryKind::Int => 1,
            EntryKind::Bool => 2,
            EntryKind::Rune => 3,
            EntryKind::Text => 4,
            EntryKind::Slice => 5,
            EntryKind::Struct => 6,
            EntryKind::Field => 7,
            EntryKind::Other(number) => number,
        }
    }
}

// Where a name is at home: among the globals, in its function, as a callee, or as true or false.
#[derive(Clone, Copy, Debug, PartialEq, Eq)]
pub enum Home {
    Nowhere,
    Global,
    Local,
    Callee,
    Constant,
    Other(u8),
}

impl From<u8> for Home {
    ghost from_gives = { HomeFrom };

    fn from(number: u8) -> Home {
        match number {
            0 => Home::Nowhere,
            1 => Home::Global,
            2 => Home::Local,
            3 => Home::Callee,
            4 => Home::Constant,
            _ => Home::Other(number),
        }
    }
}

impl From<Home> for u8 {
    ghost from_gives = { λ home number. number ≡ number_of_home home };

    fn from(home: Home) -> u8 {
        match home {
            Home::Nowhere => 0,
            Home::Global => 1,
            Home::Local => 2,
            Home::Callee => 3,
            Home::Constant => 4,
            Home::Other(number) => number,
        }
    }
}
