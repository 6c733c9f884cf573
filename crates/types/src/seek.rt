// Where a type stands in the table.
ghost use Rattle.std.specs.Prelude.{◌≡◌, ◌<◌, ◌&&◌, length, ◌==◌, position};
ghost use Rattle.types.specs.Table.{is_slice, find_slice};

use crate::Entry;
use crate::kind::EntryKind;

// The place of the first slice of this element type.
fn slice_place(table: &[Entry], of: u16) -> Option<usize>
    ensures { result ≡ position (λ e. is_slice e.kind && e.of == of) table.now }
{
    table
        .iter()
        .position(|entry| entry.kind == EntryKind::Slice && entry.of == of)
}

// The number of the first slice of this element type.
#[tactic(auto, using(crate::proofs::Finds::numbered))]
pub fn find_slice(table: &[Entry], of: u16) -> Option<u16>
    requires { length table.now < 65535 }
    ensures { result ≡ find_slice of 1 table.now }
{
    slice_place(table, of).map(|i| i as u16 + 1)
}
