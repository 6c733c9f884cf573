// A summary as one line of text. (By `write!` it could fail, and its contract does not say when.)
ghost use Rattle.std.specs.Prelude.{◌≡◌};
ghost use Rattle.summary.specs.Summaries.{summary_line};

use crate::Summary;
use report::Line;

pub fn summary_line(s: Summary) -> Line
    ensures { result.bytes ≡ summary_line s }
{
    let mut line = Line::new();
    line.text(b"records ");
    line.number(u64::from(s.records));
    line.text(b", kinds ");
    line.number(u64::from(s.kinds));
    line.text(b", deepest record ");
    line.number(u64::from(s.deepest));
    line.text(b" at depth ");
    line.number(u64::from(s.depth));
    line.text(b", text ");
    line.number(u64::from(s.text));
    line.text(b" bytes\n");
    line
}
