// What check says of a script, as one line. (By `write!` it could fail, and its contract does not say when.)
ghost use Rattle.std.specs.Prelude.{◌≡◌};
ghost use Rattle.report.specs.Lines.{verdict_line};

use crate::line::Line;
use faults::{CheckFault, Named};

pub fn verdict_line(answer: Result<(), CheckFault>) -> Line
    ensures { result.bytes ≡ verdict_line answer }
{
    let mut line = Line::new();
    match answer {
        Ok(()) => line.text(b"readable"),
        Err(fault) => {
            let Named { number, at, .. } = fault.named();
            line.text(b"refused ");
            line.number(u64::from(number));
            line.text(b" at ");
            line.number(u64::from(at));
        }
    }
    line.text(b"\n");
    line
}
