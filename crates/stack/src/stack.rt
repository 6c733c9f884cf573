// The stack, and what can be done with it.
ghost use Rattle.std.specs.Prelude.{◌≡◌, ◌+◌, ◌<◌, ◌≤◌, [], ◌∷◌, ◌++◌, length, take, drop, MatchResult, slice_get, slice_index_or, slice_set};
ghost use Rattle.std.proofs.Math.Seq.{paste};

use thiserror::Error;

// There is not enough room.
#[derive(Clone, Copy, Debug, PartialEq, Eq, Error)]
#[error("not enough room on the stack")]
pub struct Full;

// The first `top` items of the slice are in use, lowest first. The slice is lent and of fixed size, so how many are in
// use stands beside it.
#[derive(Drop)]
pub struct Stack<'a, T> {
    items: &'a mut [T],
    top: usize,
    ghost within: { top ≤ length items.now },
}

impl<'a, T: Copy> Stack<'a, T> {
    ghost use Rattle.stack.specs.Model.{used, past, Over, Becomes, Grows, Refuses};

    // An empty stack. Nothing is written.
    pub fn new(items: &'a mut [T]) -> Stack<'a, T>
        ensures { Over items.entry [] items.old result }
    {
        Stack { items, top: 0 }
    }

    // The stack of the first `top` items of the slice, or of all where it has no more. Nothing is written.
    pub fn at(items: &'a mut [T], top: usize) -> Stack<'a, T>
        ensures { Over items.entry (take top items.old) (drop top items.old) result }
    {
        let top = top.min(items.len());
        Stack { items, top }
    }

    // How many items are in use.
    pub fn len(&self) -> usize
        ensures { result ≡ length (used self.now) }
    {
        self.items().len()
    }

    // How many more there is room for.
    pub fn room(&self) -> usize
        ensures { result ≡ length (past self.now) }
    {
        self.items.len() - self.top
    }

    // The items in use.
    pub fn items(&self) -> &[T]
        ensures { result.now ≡ used self.now }
    {
        &self.items[..self.top]
    }

    pub fn get(&self, i: usize) -> T
        requires { i < length (used self.now) }
        ensures { (d : T) → result ≡ slice_index_or (used self.now) i d }
    {
        self.items()[i]
    }

    pub fn read(&self, i: usize) -> Option<T>
        ensures { result ≡ slice_get (used self.now) i }
    {
        self.items().get(i).copied()
    }

    // One more item, on top of the others. A full stack stays as it is. (As `push_all(&[x])` it would ask each caller to
    // show that an item fits in memory.)
    pub fn push(&mut self, x: T) -> Result<(), Full>
        ensures { MatchResult result (λ _. Grows self.old (x ∷ []) self.new) (λ _. Refuses self.old (x ∷ []) self.new) }
    {
        if self.room() == 0 {
            return Err(Full);
        }
        self.items[self.top] = x;
        self.top += 1;
        Ok(())
    }

    // All of `src` on top of the others, its first item lowest. Without room for all of it the stack stays as it is.
    #[tactic(auto, using(crate::proofs::Parts::grown))]
    pub fn push_all(&mut self, src: &[T]) -> Result<(), Full>
        ensures { MatchResult result (λ _. Grows self.old src.now self.new) (λ _. Refuses self.old src.now self.new) }
    {
        if self.room() < src.len() {
            return Err(Full);
        }
        let end = self.top + src.len();
        self.items[self.top..end].copy_from_slice(src);
        self.top = end;
        Ok(())
    }

    // Puts `x` in the place of an item in use. (As `paste(i, &[x])` it would ask for the same.)
    #[tactic(auto, using(crate::proofs::Parts::written))]
    pub fn write(&mut self, i: usize, x: T)
        requires { i < length (used self.old) }
        ensures { Becomes self.old (slice_set (used self.old) i x) (past self.old) self.new }
    {
        self.items[i] = x;
    }

    // Puts `x` in the place of an item in use, where there is one at `i`, and gives back what stood there.
    #[tactic(auto, using(crate::proofs::Parts::found))]
    pub fn replace(&mut self, i: usize, x: T) -> Option<T>
        ensures was { result ≡ slice_get (used self.old) i }
        ensures after { Becomes self.old (slice_set (used self.old) i x) (past self.old) self.new }
    {
        let was = self.read(i)?;
        self.write(i, x);
        Some(was)
    }

    // Puts `src` in the place of as many items in use, from the one at `at` on. Nothing else is written.
    #[tactic(auto, using(crate::proofs::Parts::pasted))]
    pub fn paste(&mut self, at: usize, src: &[T])
        requires { at + length src.now ≤ length (used self.old) }
        ensures { Becomes self.old (paste (used self.old) at src.now (length src.now)) (past self.old) self.new }
    {
        let end = at + src.len();
        self.items[at..end].copy_from_slice(src);
    }

    // Leaves the lowest `top` items in use, or all where there are no more. Nothing is written.
    #[tactic(auto, using(crate::proofs::Parts::used_cut, crate::proofs::Parts::past_cut))]
    pub fn cut(&mut self, top: usize)
        ensures { Becomes self.old (take top (used self.old)) (drop top (used self.old) ++ past self.old) self.new }
    {
        self.top = self.top.min(top);
    }
}
