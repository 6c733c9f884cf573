// The fields of a struct, and which types can be compared.
ghost use Rattle.std.specs.Prelude.{◌≡◌, ◌-◌, ◌<◌};
ghost use Rattle.types.specs.Table.{fields_of, comparable_by, comparable as comparable_type};

use crate::look::shape_of;
use crate::{Entry, Shape};
use records::part;

// The entries of the fields of the struct `t`, which has `n` of them.
fn fields_of<'a>(table: &'a [Entry], t: u16, n: u16) -> &'a [Entry]
    ensures { result.now ≡ fields_of table.now t n }
{
    part(table, t as usize, n as usize)
}

// Whether the type can be compared, by `most` levels of it; what lies deeper counts as not comparable.
fn comparable_within(table: &[Entry], most: u16, t: u16) -> bool
    ensures { result ≡ comparable_by table.now most t }
{
    if most == 0 {
        return false;
    }
    match shape_of(table, t) {
        Shape::Struct(n) => fields_of(table, t, n).iter().all(
            |field|
                requires { 0 < most }
                ensures { result ≡ comparable_by table.entry.now (most - 1) field.now.of }
            { comparable_within(table, most - 1, field.of) },
        ),
        shape => shape.is_base(),
    }
}

// Whether values of the type can be compared.
pub fn comparable(table: &[Entry], t: u16) -> bool
    ensures { result ≡ comparable_type table.now t }
{
    comparable_within(table, t, t)
}
