// A script file that has been read: all ten rules hold.
ghost use Rattle.std.specs.Prelude.{◌≡◌, ℕ, ◌≤◌, true};
ghost use Rattle.rules.specs.Links.{lead_up, linked_once};
ghost use Rattle.rules.specs.Depths.{shallow as not_deep};
ghost use Rattle.rules.specs.Children.{children_fit};
ghost use Rattle.rules.specs.Rules.{kind_listed, text_inside};

use records::Opened;

// Its records are walked without testing anything again.
#[derive(Clone, Copy)]
pub struct Script<'a> {
    pub over: Opened<'a>,
    ghost links: { (k : ℕ) → 1 ≤ k → k ≤ over.n → lead_up over.file.now k ≡ true },
    ghost once: { (k : ℕ) → 2 ≤ k → k ≤ over.n → linked_once over.file.now k ≡ true },
    ghost depth: { (k : ℕ) → 1 ≤ k → k ≤ over.n → not_deep over.file.now k ≡ true },
    ghost kinds: { (k : ℕ) → 1 ≤ k → k ≤ over.n → kind_listed over.file.now k ≡ true },
    ghost children: { (k : ℕ) → 1 ≤ k → k ≤ over.n → children_fit over.file.now k ≡ true },
    ghost texts: { (k : ℕ) → 1 ≤ k → k ≤ over.n → text_inside over.file.now k ≡ true },
}
