// A part of a slice.
ghost use Rattle.std.specs.Prelude.{◌≡◌, take, drop};

// So many items from a place on, or as many as there are.
pub fn part<T>(items: &[T], at: usize, len: usize) -> &[T]
    ensures { result.now ≡ take len (drop at items.now) }
{
    let rest = &items[at.min(items.len())..];
    &rest[..len.min(rest.len())]
}
