// The public calls of the script unit, and what the programs say of their answers.
#![tactic(auto)]

ghost use Rattle.std.specs.Prelude.{◌≡◌};
ghost use Rattle.unit.specs.Answers.{CheckVerdict, Told};

use faults::CheckFault;
use report::{Line, verdict_line};
use script::{Lengths, read};

// Whether a file can be read with these lengths lent, or the first rule of the file that it breaks: the reader's fault,
// whole.
pub fn readable(file: &[u8], lent: Lengths) -> Result<(), CheckFault>
    ensures { CheckVerdict file.now lent result }
{
    read(file, lent)?;
    Ok(())
}

// The verdict on a file as the line that a program writes.
pub fn told(file: &[u8], lent: Lengths) -> Line
    ensures { Told file.now lent result.bytes }
{
    verdict_line(readable(file, lent))
}
