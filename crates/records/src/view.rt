// The view of one record of a file, whatever its bytes and whatever the number asked for.
ghost use Rattle.std.specs.Prelude.{◌≡◌, ◌+◌, ◌*◌, ◌≤◌, true, false, length, Some};
ghost use Rattle.std.specs.Option.{option_map};
ghost use Rattle.records.specs.Kinds.{about};
ghost use Rattle.records.specs.Bytes.{rec_at, text_size, count, text_at};
ghost use Rattle.records.specs.Records.{Heads, link_up, links_up, value_fits, rec_kind, listed_kind, text_fits, say_form, say_by, seen, LinkedRec};
ghost use Rattle.records.specs.Trees.{tree_at, kind_tree, KindedAt, Top, TopKind};

use crate::bytes::{HEADER_SIZE, Header, RECORD_SIZE, Rec, fetch};
use crate::kind::{Form, Kind};
use crate::opened::Opened;
use crate::record::{Kinded, Node, Record};
use crate::slices::part;

// Whether a link of the record `r` is 0, or leads up to a record of the file.
fn link_up(n: u16, r: u16, link: u16) -> bool
    ensures { result ≡ link_up n r link }
{
    link == 0 || r < link && link <= n
}

pub fn links_up(n: u16, r: u16, rec: Rec) -> bool
    ensures { result ≡ links_up n r rec }
{
    link_up(n, r, rec.first) && link_up(n, r, rec.next)
}

// Whether a record of this form can have the value.
fn value_fits(form: Form, value: i64) -> bool
    ensures { result ≡ value_fits form value }
{
    form != Form::Rune || i32::try_from(value).is_ok()
}

// The kind that a record's number and operator stand for.
#[tactic(auto, unfolding(crate::specs::Records::rec_kind))]
pub fn rec_kind(rec: Rec) -> Option<Kind>
    ensures { result ≡ rec_kind rec }
{
    Kind::of(rec.kind, rec.op)
}

// The kind of a record, where its kind, operator and rune are listed.
pub fn listed_kind(rec: Rec) -> Option<Kind>
    ensures { result ≡ listed_kind rec }
{
    rec_kind(rec).filter(|kind| value_fits(kind.about().form, rec.value))
}

// Whether a record's text part lies inside the text, and a name is not empty.
pub fn text_fits(t: u32, rec: Rec, form: Form) -> bool
    ensures { result ≡ text_fits t rec form }
{
    let inside = u64::from(rec.at) + u64::from(rec.len) <= u64::from(t);
    match form {
        Form::Bare | Form::Int | Form::Rune => true,
        Form::Text => inside,
        Form::Name => inside && rec.len > 0,
    }
}

impl<'a> Opened<'a> {
    pub fn new(file: &'a [u8], header: Header) -> Opened<'a>
        requires { Heads file.now header }
        ensures { (result.file ≡ file.entry) × ((result.n ≡ header.records) × (result.t ≡ header.text)) }
    {
        Opened {
            file,
            n: header.records,
            t: header.text,
        }
    }

    // The fields of the record `r`.
    pub fn fields(self, r: u16) -> Rec
        requires from { 1 ≤ r }
        requires within { r ≤ self.n }
        ensures { result ≡ rec_at self.entry.file.now r }
    {
        fetch(self.file, r)
    }

    // The fields of the record `r`, where the file has a record of that number and its links lead up.
    fn linked(self, r: u16) -> Option<Rec>
        ensures { LinkedRec self.entry.file.now r result }
    {
        let rec = self.place(r)?.fields();
        links_up(self.n, r, rec).then_some(rec)
    }

    // So many bytes of the text from a place on, or as many as the file has.
    pub fn text(self, at: u32, len: u16) -> &'a [u8]
        ensures { result.now ≡ text_at self.entry.file.now at len }
    {
        let text = HEADER_SIZE + RECORD_SIZE * self.n as usize;
        part(self.file, text + at as usize, len as usize)
    }

    // What a record of this kind says, with as much of its text as the file has.
    pub fn spoken(self, kinded: Kinded) -> Record<'a>
        ensures { seen result ≡ say_form self.entry.file.now kinded.rec kinded.kind (about kinded.kind).form }
    {
        let Kinded { rec, kind } = kinded;
        match kind.about().form {
            Form::Bare => Record::Bare(kind),
            Form::Int | Form::Rune => Record::Number(kind, rec.value),
            Form::Text | Form::Name => Record::Word(kind, self.text(rec.at, rec.len)),
        }
    }

    // The same, where all of its text is inside.
    fn say(self, kinded: Kinded) -> Option<Record<'a>>
        ensures { option_map seen result ≡ say_by self.entry.file.now self.entry.t kinded.rec (Some kinded.kind) }
    {
        if !text_fits(self.t, kinded.rec, kinded.kind.about().form) {
            return None;
        }
        Some(self.spoken(kinded))
    }

    // The fields and the kind of the record `r`, which are none where its links or its kind are not in order.
    fn kinded(self, r: u16) -> Option<Kinded>
        ensures { KindedAt self.entry.file.now self.entry.n self.entry.t r result }
    {
        let rec = self.linked(r)?;
        let kind = listed_kind(rec)?;
        Some(Kinded { rec, kind })
    }

    // The record `r` by its kind: its links and its kind are tested where it stands.
    pub fn shape(self, r: u16) -> Option<Node<Kind>>
        ensures { TopKind (kind_tree self.entry.file.now) self.entry.n r result }
    {
        let Kinded { rec, kind } = self.kinded(r)?;
        Some(Node::of(kind, rec))
    }

    // The record `r` of any file: link, kind, operator, rune and text part are tested where it stands.
    pub fn node(self, r: u16) -> Option<Node<Record<'a>>>
        ensures { Top (tree_at self.entry.file.now) self.entry.n r result }
    {
        let kinded = self.kinded(r)?;
        let record = self.say(kinded)?;
        Some(Node::of(record, kinded.rec))
    }
}
