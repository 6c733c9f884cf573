// Which name a word stands for.
ghost use Rattle.std.specs.Prelude.{◌≡◌, ◌≤◌, length};
ghost use Rattle.names.specs.Scopes.{word_of, bindings, seek, predeclared, meaning, in_scope, Latest};
ghost use Rattle.names.specs.Views.{file_of, env_at};

use crate::name::{Meaning, Name};
use crate::view::View;
use script::Script;
use types::{BOOL_TYPE, INT_TYPE, RUNE_TYPE, STRING_TYPE};

// The bytes of a name, as many of them as the file has.
fn word_of<'a>(script: Script<'a>, name: Name) -> &'a [u8]
    ensures { result.now ≡ word_of script.entry.over.file.now name }
{
    script.over.text(name.at, name.len)
}

// The latest of these slots whose name is the word. (The script and the slots go together here and in `find` alone.)
fn latest(script: Script, names: &[Name], word: &[u8]) -> Option<usize>
    ensures { Latest script.entry.over.file.now names.now 0 (length names.now) word.now result }
{
    names
        .iter()
        .rposition(|name| word_of(script, *name) == word)
}

// The latest of the slots from `floor` up to `top` whose name is the word.
#[tactic(auto, using(crate::proofs::Seeks::shifted))]
pub fn find(script: Script, names: &[Name], floor: usize, top: usize, word: &[u8]) -> Option<usize>
    requires { top ≤ length names.now }
    ensures { Latest script.entry.over.file.now names.now floor top word.now result }
{
    latest(script, names.get(floor..top)?, word).map(|i| floor + i)
}

// What a word means outside every scope of the script.
pub fn predeclared_of(word: &[u8]) -> Option<Meaning>
    ensures { result ≡ predeclared word.now }
{
    match word {
        b"true" => Some(Meaning::Constant(true)),
        b"false" => Some(Meaning::Constant(false)),
        b"int" => Some(Meaning::TypeName(INT_TYPE)),
        b"bool" => Some(Meaning::TypeName(BOOL_TYPE)),
        b"rune" => Some(Meaning::TypeName(RUNE_TYPE)),
        b"string" => Some(Meaning::TypeName(STRING_TYPE)),
        _ => None,
    }
}

impl View<'_, '_> {
    // What a word means in the slots from `floor` up to `top`.
    #[tactic(auto, using(crate::proofs::Seeks::latest_seeks))]
    fn between(self, floor: usize, top: usize, word: &[u8]) -> Option<Meaning>
        requires { top ≤ length self.names.now }
        ensures { result ≡ seek word.now (bindings (file_of self.entry) self.entry.names.now floor top) }
    {
        find(self.script, self.names, floor, top, word).map(|i| self.names[i].means)
    }

    // What it means where it stands: as the innermost scope has it that has it at all. That one has the latest slot.
    #[tactic(auto, using(crate::proofs::Seeks::innermost))]
    pub fn meaning(self, word: &[u8]) -> Option<Meaning>
        ensures { result ≡ meaning word.now (env_at self.entry) }
    {
        self.between(0, self.mark.top, word)
            .or_else(|| predeclared_of(word))
    }

    // What it means in the current scope.
    pub fn here(self, word: &[u8]) -> Option<Meaning>
        ensures { result ≡ seek word.now (env_at self.entry).here }
    {
        self.between(self.mark.floor, self.mark.top, word)
    }

    // Whether the current scope has it.
    pub fn declared(self, word: &[u8]) -> bool
        ensures { result ≡ in_scope word.now (env_at self.entry) }
    {
        self.here(word).is_some()
    }
}
