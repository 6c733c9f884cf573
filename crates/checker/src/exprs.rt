// What an expression needs of the types of its parts, its own type, and its note.
//
// `table`, `notes` and `r` stay parameters: a struct that lends them would have each contract say, besides, that the
// slices in it are the same ones after the call.
ghost use Rattle.std.specs.Prelude.{◌≡◌, ◌-◌, List, slice_set};
ghost use Rattle.types.specs.Table.{shape_of};
ghost use Rattle.types.specs.declared.Entry.{Entry as TableEntry};
ghost use Rattle.checker.specs.Outcome.{out_of, state, typed as typed_as};
ghost use Rattle.checker.specs.Exprs.{home_of, value_by, unary_takes, unary_of, binary_takes, binary_gives, binary_of, element_of, index_of, append_of, cast_of};

use faults::CheckFault;
use names::Meaning;
use records::{BinaryOp, UnaryOp};
use types::{BLANK, BOOL_TYPE, Entry, Home, INT_TYPE, Note, Shape, comparable, shape_of};

// Writes the note of the record `r`, which counts from 1, and gives the note's type. Past the last note nothing is
// written; 0 is taken for 1, as the definition has it.
fn put_note(notes: &mut [Note], r: u16, note: Note) -> u16
    ensures notes { notes.new ≡ slice_set notes.old (r - 1) note }
    ensures ty { result ≡ note.ty }
{
    let i = (r as usize).saturating_sub(1);
    // By its index: of an item that `get_mut` lends, a proof does not know what was written.
    if i < notes.len() {
        notes[i] = note;
    }
    note.ty
}

// The type, noted at the record.
fn typed(notes: &mut [Note], r: u16, ty: u16) -> Result<u16, CheckFault>
    ensures { (table : List TableEntry) → out_of result notes.new table ≡ typed_as r ty (state notes.old table) }
{
    Ok(put_note(notes, r, Note { ty, ..BLANK }))
}

// Which operands a unary operator takes.
fn unary_takes(op: UnaryOp, shape: Shape) -> bool
    ensures { result ≡ unary_takes op shape }
{
    match op {
        UnaryOp::Plus | UnaryOp::Minus | UnaryOp::Complement => shape.is_numeric(),
        UnaryOp::Not => shape.is_bool(),
    }
}

// A unary operator over an operand of the type `t`.
pub fn unary(
    table: &[Entry],
    notes: &mut [Note],
    r: u16,
    op: UnaryOp,
    t: u16,
) -> Result<u16, CheckFault>
    ensures { out_of result notes.new table.now ≡ unary_of r op t (state notes.old table.now) }
{
    if !unary_takes(op, shape_of(table, t)) {
        return Err(CheckFault::NotTaken(r));
    }
    typed(notes, r, t)
}

// Which operands a binary operator takes.
fn binary_takes(table: &[Entry], op: BinaryOp, t: u16) -> bool
    ensures { result ≡ binary_takes op table.now t }
{
    let shape = shape_of(table, t);
    match op {
        BinaryOp::Or | BinaryOp::And => shape.is_bool(),
        BinaryOp::Equal | BinaryOp::NotEqual => comparable(table, t),
        BinaryOp::Less | BinaryOp::AtMost | BinaryOp::Greater | BinaryOp::AtLeast | BinaryOp::Add =>
            shape.is_ordered(),
        BinaryOp::Sub
        | BinaryOp::Mul
        | BinaryOp::Div
        | BinaryOp::Rem
        | BinaryOp::BitOr
        | BinaryOp::BitAnd
        | BinaryOp::Shl
        | BinaryOp::Shr
        | BinaryOp::BitClear
        | BinaryOp::BitXor => shape.is_numeric(),
    }
}

// The type that a binary operator gives over operands of the type `t`.
fn binary_gives(op: BinaryOp, t: u16) -> u16
    ensures { result ≡ binary_gives op t }
{
    match op {
        BinaryOp::Or
        | BinaryOp::And
        | BinaryOp::Equal
        | BinaryOp::NotEqual
        | BinaryOp::Less
        | BinaryOp::AtMost
        | BinaryOp::Greater
        | BinaryOp::AtLeast => BOOL_TYPE,
        _ => t,
    }
}

// A binary operator over operands of the types `t` and `u`: both are taken, and they are the same.
pub fn binary(
    table: &[Entry],
    notes: &mut [Note],
    r: u16,
    op: BinaryOp,
    t: u16,
    u: u16,
) -> Result<u16, CheckFault>
    ensures { out_of result notes.new table.now ≡ binary_of r op t u (state notes.old table.now) }
{
    if !binary_takes(table, op, t) || !binary_takes(table, op, u) {
        return Err(CheckFault::NotTaken(r));
    }
    if t != u {
        return Err(CheckFault::Differs(r));
    }
    typed(notes, r, binary_gives(op, t))
}

// The type of the elements of a slice.
fn element_of(shape: Shape) -> Option<u16>
    ensures { result ≡ element_of shape }
{
    match shape {
        Shape::Slice(of) => Some(of),
        _ => None,
    }
}

// An element of what has the type `t`, at an index of the type `u`.
pub fn index(table: &[Entry], notes: &mut [Note], r: u16, t: u16, u: u16) -> Result<u16, CheckFault>
    ensures { out_of result notes.new table.now ≡ index_of r (element_of (shape_of table.now t)) u (state notes.old table.now) }
{
    let element = element_of(shape_of(table, t)).ok_or(CheckFault::NotTaken(r))?;
    if u != INT_TYPE {
        return Err(CheckFault::Differs(r));
    }
    typed(notes, r, element)
}

// What has the type `u`, appended to what has the type `t`.
pub fn append(
    table: &[Entry],
    notes: &mut [Note],
    r: u16,
    t: u16,
    u: u16,
) -> Result<u16, CheckFault>
    ensures { out_of result notes.new table.now ≡ append_of r t (element_of (shape_of table.now t)) u (state notes.old table.now) }
{
    let element = element_of(shape_of(table, t)).ok_or(CheckFault::NotTaken(r))?;
    if element != u {
        return Err(CheckFault::Differs(r));
    }
    typed(notes, r, t)
}

// What has the type `u`, cast to the type `t`.
pub fn cast(table: &[Entry], notes: &mut [Note], r: u16, t: u16, u: u16) -> Result<u16, CheckFault>
    ensures { out_of result notes.new table.now ≡ cast_of r t u (state notes.old table.now) }
{
    if !shape_of(table, t).is_castable() || !shape_of(table, u).is_castable() {
        return Err(CheckFault::NotTaken(r));
    }
    typed(notes, r, t)
}

fn home_of(global: bool) -> Home
    ensures { result ≡ home_of global }
{
    if global { Home::Global } else { Home::Local }
}

// An identifier as a value, by what its name means: a variable, or true or false.
pub fn value(notes: &mut [Note], r: u16, meaning: Option<Meaning>) -> Result<u16, CheckFault>
    ensures { (table : List TableEntry) → out_of result notes.new table ≡ value_by r meaning (state notes.old table) }
{
    let note = match meaning.ok_or(CheckFault::Undeclared(r))? {
        Meaning::Variable { ty, global, place } => Note {
            ty,
            home: home_of(global),
            place,
        },
        Meaning::Constant(bit) => Note {
            ty: BOOL_TYPE,
            home: Home::Constant,
            place: u16::from(bit),
        },
        Meaning::TypeName(_) | Meaning::Function(_) => return Err(CheckFault::WrongSort(r)),
    };
    Ok(put_note(notes, r, note))
}
