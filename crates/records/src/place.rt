// One record of a file by its number, and the records that come one after the other, by number or by link.
ghost use Rattle.std.specs.Prelude.{◌≤◌};

use crate::opened::Opened;

// A record that the file has; nothing is known of what it says.
#[derive(Clone, Copy)]
pub struct Place<'a> {
    pub over: Opened<'a>,
    pub r: u16,
    ghost from: { 1 ≤ r },
    ghost within: { r ≤ over.n },
}

// The records from the number `next` on.
#[derive(Clone, Copy)]
pub struct Places<'a> {
    pub over: Opened<'a>,
    pub next: u16,
    ghost from: { 1 ≤ next },
}

// A record and the ones that follow it by their links to the next child of the same parent.
#[derive(Clone, Copy)]
pub struct Chain<'a> {
    pub over: Opened<'a>,
    pub at: u16,
}
