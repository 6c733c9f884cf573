// The check of a script: names, scopes, types and notes. All definitions stand in specs/; of the code, what an
// expression needs of the types of its parts.
#![tactic(auto)]

ghost use Rattle.checker.specs.Examples.{Examples};

mod exprs;

pub use exprs::{append, binary, cast, index, unary, value};

// The definitions give worked examples their answers.
pub fn examples_stand()
    ensures { Examples }
{}
