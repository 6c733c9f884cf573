// A name, what it means, and where the names in scope end.

// A variable has a type, and a place: among the globals (`global`) or in its function. A function goes by its record's
// number.
#[derive(Clone, Copy, Debug, PartialEq, Eq)]
pub enum Meaning {
    Variable { ty: u16, global: bool, place: u16 },
    TypeName(u16),
    Function(u16),
    Constant(bool),
}

// Its bytes are `len` from place `at` on of the file's text.
#[derive(Clone, Copy, Debug, PartialEq, Eq)]
pub struct Name {
    pub at: u32,
    pub len: u16,
    pub means: Meaning,
}

// How many slots are in use, where those of the current scope begin, and the next variable's place. The slots are lent
// and of fixed number, so what is in use of them stands beside them.
#[derive(Clone, Copy, Debug, PartialEq, Eq)]
pub struct Mark {
    pub top: usize,
    pub floor: usize,
    pub place: u16,
}
