// Reads a script file from standard input and writes the reader's verdict and, where the file can be read, its
// summary.
#![tactic(auto)]

ghost use Rattle.script_summary.specs.Answers.{Looked, Answers};

use faults::{CheckFault, FileFault};
use host::{ROOM, filled};
use report::{Line, verdict_line};
use script::{ENOUGH, Script};
use std::io::Write;
use summary::{Summary, summarize, summary_line};

// The lines to write.
#[derive(Drop)]
struct Answer {
    verdict: Line,
    summary: Option<Line>,
}

// The summary of a file, or the first fault.
fn look(file: &[u8]) -> Result<Summary, FileFault>
    ensures { Looked file.now result }
{
    Ok(summarize(Script::read(file, ENOUGH)?))
}

fn answer_to(file: &[u8]) -> Answer
    ensures { Answers file.now result }
{
    match look(file) {
        Ok(summary) => Answer {
            verdict: verdict_line(Ok(())),
            summary: Some(summary_line(summary)),
        },
        Err(fault) => Answer {
            verdict: verdict_line(Err(CheckFault::File(fault))),
            summary: None,
        },
    }
}

fn main(rt: HostRuntime) -> anyhow::Result<()> {
    let mut room = vec![in rt.alloc(); 0u8; ROOM]?;
    let answer = answer_to(filled(&mut rt.stdin(), &mut room)?);
    let mut out = rt.stdout();
    out.write_all(answer.verdict.as_slice())?;
    if let Some(line) = &answer.summary {
        out.write_all(line.as_slice())?;
    }
    Ok(())
}
