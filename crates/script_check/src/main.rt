// Reads a script file from standard input and writes the verdict on it as one line.
#![tactic(auto)]

use host::{ROOM, filled};
use script::ENOUGH;
use std::io::Write;
use unit::told;

fn main(rt: HostRuntime) -> anyhow::Result<()> {
    let mut room = vec![in rt.alloc(); 0u8; ROOM]?;
    let file = filled(&mut rt.stdin(), &mut room)?;
    rt.stdout().write_all(told(file, ENOUGH).as_slice())?;
    Ok(())
}
