// The walk over the records of a file that has been read.
ghost use Rattle.std.specs.Prelude.{◌≡◌};
ghost use Rattle.script.specs.Verdict.{Readable};
ghost use Rattle.script.specs.Trees.{At, KnownAt};

use crate::script::Script;
use records::{Header, Kinded, Node, Opened, Record, rec_kind};

impl<'a> Script<'a> {
    pub fn new(file: &'a [u8], header: Header) -> Script<'a>
        requires { Readable file.now header }
        ensures { (result.over.file ≡ file.entry) × ((result.over.n ≡ header.records) × (result.over.t ≡ header.text)) }
    {
        Script {
            over: Opened::new(file, header),
        }
    }

    // The fields and the kind of the record `r`, where the file has one of that number.
    fn kinded(self, r: u16) -> Option<Kinded>
        ensures { KnownAt self.entry.over.file.now self.entry.over.n self.entry.over.t r result }
    {
        let rec = self.over.place(r)?.fields();
        let Some(kind) = rec_kind(rec) else {
            unreachable()
        };
        Some(Kinded { rec, kind })
    }

    // The record `r`, and none where `r` is 0 or past the last.
    pub fn node(self, r: u16) -> Option<Node<Record<'a>>>
        ensures { At self.entry.over.file.now self.entry.over.n r result }
    {
        let kinded = self.kinded(r)?;
        let record = self.over.spoken(kinded);
        Some(Node::of(record, kinded.rec))
    }
}
