// What a caller knows of the slice that it lent, once the stack over it is gone.
ghost use Rattle.std.specs.Prelude.{◌≡◌, ◌<◌, [], ◌∷◌, length, take, drop, MatchResult};

use crate::stack::{Full, Stack};

// Of a slice that is too short, what fits is written.
fn push_two(items: &mut [u16]) -> Result<(), Full>
    ensures { MatchResult result (λ _. items.new ≡ 7 ∷ (9 ∷ drop 2 items.old)) (λ _. (length items.old < 2) × (items.new ≡ take (length items.old) (7 ∷ []))) }
{
    let mut stack = Stack::new(items);
    stack.push(7)?;
    stack.push(9)?;
    Ok(())
}
