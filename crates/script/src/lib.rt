// The reader of script files: the ten rules that a file is held to before anything else looks at it.
#![tactic(auto)]

ghost use Rattle.std.specs.Prelude.{◌≡◌, IfOk};
ghost use Rattle.script.specs.Stages.{Stages};
ghost use Rattle.script.specs.Judged.{Judged};
ghost use Rattle.std.specs.Result.{result_map_both};
ghost use Rattle.script.specs.Verdict.{lent_for, Verdict, OnlyVerdict, Readable};
ghost use Rattle.script.specs.Scripts.{header_of};
ghost use Rattle.script.specs.Trees.{WellFormed};
ghost use Rattle.script.specs.Depths.{OneWay, DepthLaw};
ghost use Rattle.script.specs.Samples.{Samples};

mod script;
mod walk;

use faults::FileFault;
use records::{Header, MOST_RECORDS, Opened, open};
use rules::keep_rules;
pub use script::Script;

pub const LEAST_ENTRIES: usize = 2304;

pub const LEAST_NAMES: usize = 256;

// The lengths of what is lent for a check: notes, entries of the type table and name slots.
#[derive(Clone, Copy, Debug, PartialEq, Eq)]
pub struct Lengths {
    pub notes: usize,
    pub entries: usize,
    pub names: usize,
}

// Lengths that suffice for every file.
pub const ENOUGH: Lengths = Lengths {
    notes: MOST_RECORDS as usize,
    entries: LEAST_ENTRIES,
    names: LEAST_NAMES,
};

fn lent_for(n: u16, lent: Lengths) -> bool
    ensures { result ≡ lent_for n lent }
{
    n as usize <= lent.notes && LEAST_ENTRIES <= lent.entries && LEAST_NAMES <= lent.names
}

// One stage after the other. (A file and what is lent for it are the two things that a caller hands in, here and above.)
fn stages(file: &[u8], lent: Lengths) -> Result<Header, FileFault>
    ensures { Stages file.now lent result }
{
    let header = open(file)?;
    if !lent_for(header.records, lent) {
        return Err(FileFault::Lent);
    }
    keep_rules(Opened::new(file, header))?;
    Ok(header)
}

// The same, with all that follows from it.
fn judge(file: &[u8], lent: Lengths) -> Result<Header, FileFault>
    ensures { Judged file.now lent result }
{
    stages(file, lent)
}

// Reads a file: what its header says if no rule is broken, else the first fault. Nothing is written anywhere.
pub fn read(file: &[u8], lent: Lengths) -> Result<Header, FileFault>
    ensures verdict { Verdict file.now lent result }
    ensures only { OnlyVerdict file.now lent result }
    ensures readable { IfOk result (λ h. Readable file.now h) }
    ensures tree { IfOk result (λ h. WellFormed file.now) }
    ensures depth { OneWay file.now → DepthLaw file.now }
{
    judge(file, lent)
}

impl<'a> Script<'a> {
    // Reads a file to walk over it: the script, if no rule is broken, else the first fault.
    pub fn read(file: &'a [u8], lent: Lengths) -> Result<Script<'a>, FileFault>
        ensures verdict { Verdict file.now lent (result_map_both header_of (λ e. e) result) }
        ensures same { IfOk result (λ s. s.over.file ≡ file.entry) }
    {
        Ok(Script::new(file, read(file, lent)?))
    }
}

// Some file can be read, and some cannot.
pub fn samples_stand()
    ensures { Samples }
{}
