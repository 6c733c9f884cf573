// The records of a script file: what its bytes say, one record at a time, and the tree that they make.
#![tactic(auto)]

mod bytes;
mod kind;
mod opened;
mod place;
mod places;
mod record;
mod slices;
mod view;

pub use bytes::{
    HEADER_SIZE, Header, MOST_BYTES, MOST_RECORDS, MOST_TEXT, RECORD_SIZE, RECORD_SLOTS, Rec, open,
};
pub use kind::{About, BinaryOp, Class, Form, Kind, NotListed, UnaryOp};
pub use opened::Opened;
pub use place::{Chain, Place, Places};
pub use record::{Kinded, Node, Record};
pub use slices::part;
pub use view::{links_up, listed_kind, rec_kind, text_fits};
