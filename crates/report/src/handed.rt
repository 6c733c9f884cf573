// What a function knows of a line that it is handed: it has no more bytes than there is room for, and a line with the
// same bytes is the same line. Nothing calls these; they show that no clause has to say so.
ghost use Rattle.std.specs.Prelude.{◌≡◌};

use crate::line::Line;

// No byte more is sure to fit.
fn add_nothing(line: &mut Line)
    ensures { line.new.bytes ≡ line.old.bytes }
{
    line.text(b"");
}

#[tactic(auto, using(crate::proofs::Same::same_bytes))]
fn copied(line: &Line) -> Line
    ensures { result ≡ line.now }
{
    let mut copy = Line::new();
    copy.text(line.as_slice());
    copy
}
