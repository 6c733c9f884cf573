// Reads script files from standard input, one a line in hexadecimal (`-` is the empty file), and writes the verdict on
// each as one line. A line that is no hexadecimal text gets `no file`.
#![tactic(auto)]

ghost use Rattle.std.specs.Prelude.{length};
ghost use Rattle.std.specs.Option.{option_copied};
ghost use Rattle.check_vectors.specs.Lines.{FileOf};

use host::{ROOM, unhexed};
use script::ENOUGH;
use std::io::{BufRead, BufReader, Write};
use unit::told;

// The file that a line stands for, where it fits in the room lent for it.
fn file_of<'b>(line: &[u8], room: &'b mut [u8]) -> Option<&'b [u8]>
    ensures { FileOf line.now (length room.old) (option_copied result) }
{
    match line {
        b"-" => Some(&[]),
        _ => unhexed(line, room),
    }
}

fn main(rt: HostRuntime) -> anyhow::Result<()> {
    let mut room = vec![in rt.alloc(); 0u8; ROOM]?;
    for line in BufReader::new(rt.alloc(), rt.stdin())?.lines(rt.alloc()) {
        match file_of(line?.as_bytes(), &mut room) {
            Some(file) => rt.stdout().write_all(told(file, ENOUGH).as_slice())?,
            None => rt.stdout().write_all(b"no file\n")?,
        }
    }
    Ok(())
}
