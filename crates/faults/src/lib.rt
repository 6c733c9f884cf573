// What the unit answers when it turns something down: the faults of each layer, and the one place where a
// fault gets its number, the record that it is found at and its layer.
#![tactic(auto)]

ghost use Rattle.std.specs.Prelude.{◌≡◌, Some};
ghost use Rattle.faults.specs.declared.CheckFault.TheVariants.{File};
ghost use Rattle.faults.specs.Numbers.{named, file_named, check_named, refusal};

use std::error::Error;
use std::fmt;

// The layer of the unit that found a fault.
#[derive(Clone, Copy, Debug, PartialEq, Eq)]
pub enum Layer {
    File,
    Check,
    Run,
}

// A fault as the support line reads it: its number, the record where it was found (0: the whole input), its layer. The
// numbers are what is read out; in the code a fault goes by its name.
#[derive(Clone, Copy, Debug, PartialEq, Eq)]
pub struct Named {
    pub number: u8,
    pub at: u16,
    pub layer: Layer,
}

// The texts of the faults are written out here, since the text of a derived `Error` has no clause.
impl fmt::Display for Named {
    ghost output = { λ n. Some (refusal n) };

    fn fmt<W: fmt::Write>(&self, f: &mut fmt::Formatter<W>) -> fmt::Result {
        write!(f, "refused {} at {}", self.number, self.at)
    }
}

// Why a script file cannot be read, with the record where that is so.
#[derive(Clone, Copy, Debug, PartialEq, Eq)]
pub enum FileFault {
    // shorter than a header
    Short,
    // no records, or more records or text than a script may have
    Size,
    // the length is not the one that the header gives
    Length,
    // too few notes, entries or names were lent
    Lent,
    // a link leads neither up to a record of the file nor to none
    Link(u16),
    // not linked exactly once
    Linked(u16),
    // too deep
    Deep(u16),
    // a kind, an operator or a rune that is not listed
    Unlisted(u16),
    // children that are not as listed
    Children(u16),
    // a text part beyond the text, or an empty name
    Text(u16),
}

impl Named {
    fn new(layer: Layer, number: u8, at: u16) -> Named
        ensures { result ≡ named layer number at }
    {
        Named { number, at, layer }
    }
}

impl FileFault {
    pub fn named(self) -> Named
        ensures { result ≡ file_named self }
    {
        match self {
            FileFault::Short => Named::new(Layer::File, 1, 0),
            FileFault::Size => Named::new(Layer::File, 2, 0),
            FileFault::Length => Named::new(Layer::File, 3, 0),
            FileFault::Lent => Named::new(Layer::File, 4, 0),
            FileFault::Link(at) => Named::new(Layer::File, 5, at),
            FileFault::Linked(at) => Named::new(Layer::File, 6, at),
            FileFault::Deep(at) => Named::new(Layer::File, 7, at),
            FileFault::Unlisted(at) => Named::new(Layer::File, 8, at),
            FileFault::Children(at) => Named::new(Layer::File, 9, at),
            FileFault::Text(at) => Named::new(Layer::File, 10, at),
        }
    }
}

impl fmt::Display for FileFault {
    ghost output = { λ e. Some (refusal (file_named e)) };

    fn fmt<W: fmt::Write>(&self, f: &mut fmt::Formatter<W>) -> fmt::Result {
        self.named().fmt(f)
    }
}

impl Error for FileFault {}

// Why a script is not accepted.
#[derive(Clone, Copy, Debug, PartialEq, Eq)]
pub enum CheckFault {
    // the file cannot be read: the reader's fault, whole
    File(FileFault),
    // no such name
    Undeclared(u16),
    // already declared in this scope, list or struct
    Again(u16),
    // a name of another sort is needed
    WrongSort(u16),
    // types differ
    Differs(u16),
    // the type is not one that is taken here
    NotTaken(u16),
    // a call without a result where a value is needed
    NoValue(u16),
    // counts differ
    Counts(u16),
    // no such field
    NoField(u16),
    // nothing can be stored here
    NotAssignable(u16),
    // a short declaration of no new name
    NothingNew(u16),
    // a path without a return
    NoReturn(u16),
    // break or continue outside a loop
    NoLoop(u16),
    // a type of too many cells
    Wide(u16),
    // too many entries in the type table
    Entries(u16),
    // too many names in scope
    Names(u16),
}

impl CheckFault {
    pub fn named(self) -> Named
        ensures { result ≡ check_named self }
    {
        match self {
            CheckFault::File(fault) => fault.named(),
            CheckFault::Undeclared(at) => Named::new(Layer::Check, 11, at),
            CheckFault::Again(at) => Named::new(Layer::Check, 12, at),
            CheckFault::WrongSort(at) => Named::new(Layer::Check, 13, at),
            CheckFault::Differs(at) => Named::new(Layer::Check, 14, at),
            CheckFault::NotTaken(at) => Named::new(Layer::Check, 15, at),
            CheckFault::NoValue(at) => Named::new(Layer::Check, 16, at),
            CheckFault::Counts(at) => Named::new(Layer::Check, 17, at),
            CheckFault::NoField(at) => Named::new(Layer::Check, 18, at),
            CheckFault::NotAssignable(at) => Named::new(Layer::Check, 19, at),
            CheckFault::NothingNew(at) => Named::new(Layer::Check, 20, at),
            CheckFault::NoReturn(at) => Named::new(Layer::Check, 21, at),
            CheckFault::NoLoop(at) => Named::new(Layer::Check, 22, at),
            CheckFault::Wide(at) => Named::new(Layer::Check, 23, at),
            CheckFault::Entries(at) => Named::new(Layer::Check, 24, at),
            CheckFault::Names(at) => Named::new(Layer::Check, 25, at),
        }
    }
}

impl fmt::Display for CheckFault {
    ghost output = { λ e. Some (refusal (check_named e)) };

    fn fmt<W: fmt::Write>(&self, f: &mut fmt::Formatter<W>) -> fmt::Result {
        write!(f, "{}", self.named())
    }
}

impl Error for CheckFault {}

impl From<FileFault> for CheckFault {
    ghost from_gives = { λ e r. r ≡ File e };

    fn from(fault: FileFault) -> CheckFault {
        CheckFault::File(fault)
    }
}
