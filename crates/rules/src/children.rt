// Each record has the children that are listed for its kind.
ghost use Rattle.std.specs.Prelude.{◌≡◌, ℕ, ◌<◌, false, not, ◌&&◌, ◌||◌, slice_index_or};
ghost use Rattle.std.specs.Result.{result_err};
ghost use Rattle.records.specs.Kinds.{same_kind};
ghost use Rattle.records.specs.declared.kind.Kind.TheVariants.{Program, List as ListKind};
ghost use Rattle.records.specs.Trees.{kind_tree};
ghost use Rattle.rules.specs.First.{First};
ghost use Rattle.rules.specs.Children.{chained, each, within as within_of, fit, among, wants, Marked, must_fill, is_none, has_children, children_fit};

use crate::first::all_keep;
use crate::grammar::{Children, Sort, fills_lists};
use records::{Chain, Kind, Node, Opened, Place, RECORD_SLOTS};

// Whether each record of the chain is of the sort.
fn all_of(chain: Chain, sort: Sort) -> bool
    ensures { result ≡ each sort (chained chain.entry) }
{
    for (_, child) in chain {
        if !sort.admits(child.record, child.record) {
            return false;
        }
    }
    true
}

// Whether the chain below a record at a place of the sort may stand there.
fn holds(chain: Chain, sort: Sort) -> bool
    ensures { result ≡ within_of sort (chained chain.entry) }
{
    match sort.contents() {
        Some(inner) => all_of(chain, inner),
        None => true,
    }
}

// Whether the chain has the children of a record of this kind. The count is kept by hand: it is asked for once more
// when the chain has ended, where `enumerate` has none.
fn fits(chain: Chain, line: Children, kind: Kind) -> bool
    ensures { result ≡ fit line 0 kind (chained chain.entry) }
{
    let mut count = 0;
    let mut before = kind;
    for (_, child) in chain {
        let sort = line.slot(count);
        let below = chain.over.chain(child.first);
        if !sort.admits(before, child.record) || !holds(below, sort) {
            return false;
        }
        count += 1;
        before = child.record;
    }
    line.ends(count)
}

// Marks the records of the chain. (The marks are a slot for each record, since nothing is allocated.)
fn mark_chain(chain: Chain, marks: &mut [bool; RECORD_SLOTS])
    ensures { Marked (λ k. among k (chained chain.entry)) marks.old marks.new }
{
    for (r, _) in chain {
        marks[usize::from(r)] = true;
    }
}

// Marks the children of a record, where its lists must not be empty.
fn mark_owned(place: Place, marks: &mut [bool; RECORD_SLOTS])
    ensures { Marked (λ k. wants k (kind_tree place.entry.over.file.now place.entry.r)) marks.old marks.new }
{
    if let Some(parent) = place.over.shape(place.r) {
        if fills_lists(parent.record) {
            mark_chain(place.over.chain(parent.first), marks);
        }
    }
}

// Which records must not be empty as lists.
fn full_lists(s: Opened) -> [bool; RECORD_SLOTS]
    ensures { (k : ℕ) → k < 2048 → slice_index_or result k false ≡ must_fill s.entry.file.now s.entry.n k }
{
    let mut marks = [false; RECORD_SLOTS];
    for place in s.places(1) {
        mark_owned(place, &mut marks);
    }
    marks
}

// Whether the first record is the program, with nothing beside it.
fn is_root(s: Opened, shape: Node<Kind>) -> bool
    ensures { result ≡ (same_kind shape.«record» Program && is_none (kind_tree s.entry.file.now shape.next)) }
{
    shape.record.is(Kind::Program) && s.shape(shape.next).is_none()
}

// Whether a record is no list, or one that is not empty.
fn is_filled(s: Opened, shape: Node<Kind>) -> bool
    ensures { result ≡ (not (same_kind shape.«record» ListKind) || not (is_none (kind_tree s.entry.file.now shape.first))) }
{
    !shape.record.is(Kind::List) || s.shape(shape.first).is_some()
}

// Whether the record has its children; `full` says that as a list it must not be empty.
fn has_children(place: Place, full: bool) -> bool
    ensures { result ≡ has_children place.entry.r full (kind_tree place.entry.over.file.now place.entry.r) }
{
    let s = place.over;
    let Some(shape) = s.shape(place.r) else {
        return false;
    };
    fits(
        s.chain(shape.first),
        Children::of(shape.record),
        shape.record,
    ) && (place.r != 1 || is_root(s, shape))
        && (!full || is_filled(s, shape))
}

// Whether all records have their children, or else the lowest that has not.
pub fn all_have_children(s: Opened) -> Result<(), u16>
    ensures { First (children_fit s.entry.file.now) 1 s.entry.n (result_err result) }
{
    let full = full_lists(s);
    all_keep(
        s.places(1),
        |place|
            ensures { result ≡ has_children place.entry.r (slice_index_or full place.entry.r false) (kind_tree place.entry.over.file.now place.entry.r) }
        { has_children(place, full[usize::from(place.r)]) },
    )
}
