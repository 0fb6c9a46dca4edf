// The table of names, each for one text.
ghost use Rattle.std.specs.Prelude.{◌≡◌, ◌≤◌, ◌++◌, ◌∷◌, [], ℕ, List, length, map, string_bytes, IfSome, IfNone, IfOk, OnOk, OnErr};
ghost use Rattle.std.specs.Borrow.{Bor};
ghost use Rattle.std.specs.List.{All};
ghost use Rattle.std.specs.Str.{IsAscii};
ghost use Rattle.ef_base.specs.Texts.{AllDiffer, AllUtf8, Extends, Gains, HasName, HasText, IsAbsent, IsFresh, IsNameOf, Texts, text};
ghost use Rattle.ef_base.specs.Words.{fixed_words};

use crate::words::FIXED_WORDS;
use crate::{Name, NoMemory};
use indexmap::IndexSet;
use std::alloc::Global;
use std::marker::Model;

/// A table of names. Contracts see it as the list of its texts, in order of their first `intern`; no text
/// stands twice. The table only grows, so what is said of a name holds in every later table.
#[derive(Drop)]
pub struct Names {
    alloc: Global,
    texts: IndexSet<String>,
}

impl Model for Names {
    ghost use Rattle.std.specs.Prelude.{List, ℕ, map, string_bytes};
    ghost use Rattle.ef_base.specs.Texts.{AllDiffer, AllUtf8};

    ghost Value = { List (List ℕ) };

    ghost view = { λ n. map string_bytes n.texts.keys };

    ghost invariant = { λ n. AllDiffer (map string_bytes n.texts.keys) × AllUtf8 (map string_bytes n.texts.keys) };
}

impl Names {
    /// A table without names.
    pub fn new(alloc: Global) -> Names
        ensures { result ≡ [] }
    {
        Names {
            alloc,
            texts: IndexSet::new(alloc),
        }
    }

    /// The name of this text, if the table has one. It takes no memory.
    pub fn find(&self, text: &str) -> Option<Name>
        ensures found { IfSome result (λ name. (all : Texts) → Extends self.now all → IsNameOf all name text.now) }
        ensures none { IfNone result (IsAbsent text.now self.now) }
    {
        match self.texts.get_full(text) {
            Some((index, _)) => Some(Name { index }),
            None => None,
        }
    }

    /// The text of a name of this table.
    pub fn text(&self, name: Name) -> &str
        requires { HasName self.now name }
        ensures { (all : Texts) → Extends self.now all → IsNameOf all name result.now }
    {
        self.texts.get_index(name.index).unwrap().as_str()
    }

    /// The text of a name, and none of a name of another table.
    pub fn text_of(&self, name: Name) -> &str
        ensures { result.now ≡ text self.now name }
    {
        match self.texts.get_index(name.index) {
            Some(text) => text.as_str(),
            None => "",
        }
    }

    /// The name of this text, which is put into the table where it is not there.
    pub fn intern(&mut self, text: &str) -> Result<Name, NoMemory>
        ensures kept { Extends self.old self.new }
        ensures named { IfOk result (λ name. (all : Texts) → Extends self.new all → IsNameOf all name text.now) }
        ensures table { OnOk result (Gains text.now self.old self.new) }
        ensures differ { AllDiffer self.new }
        ensures utf8 { AllUtf8 self.new }
        ensures err { OnErr result (self.new ≡ self.old) }
    {
        if let Some(name) = self.find(text) {
            return Ok(name);
        }
        let kept = String::from_str(self.alloc, text)?;
        let (index, _) = self.texts.insert_full(kept)?;
        Ok(Name { index })
    }

    /// Puts the fixed words into the table, which after `NoMemory` may have gained some of them.
    pub fn keep_words(&mut self) -> Result<(), NoMemory>
        ensures held { OnOk result (All (HasText self.new) fixed_words) }
        ensures kept { Extends self.old self.new }
        ensures differ { AllDiffer self.new }
        ensures utf8 { AllUtf8 self.new }
    {
        self.intern_all(&FIXED_WORDS)
    }

    fn intern_all(&mut self, texts: &[&str]) -> Result<(), NoMemory>
        ensures held { OnOk result (All (HasText self.new) (map (λ (t : Bor (List ℕ)). t.now) texts.now)) }
        ensures kept { Extends self.old self.new }
        ensures differ { AllDiffer self.new }
        ensures utf8 { AllUtf8 self.new }
    {
        self.texts.reserve(texts.len())?;
        for text in texts {
            self.intern(text)?;
        }
        Ok(())
    }

    /// A new name, whose text the table did not hold.
    pub fn fresh(&mut self) -> Result<Name, NoMemory>
        ensures fresh { IfOk result (IsFresh self.old self.new) }
        ensures short { IfOk result (λ name. length (text self.new name) ≤ 40) }
        ensures ascii { IfOk result (λ name. IsAscii (text self.new name)) }
        ensures table { IfOk result (λ name. self.new ≡ self.old ++ text self.new name ∷ []) }
        ensures kept { Extends self.old self.new }
        ensures differ { AllDiffer self.new }
        ensures utf8 { AllUtf8 self.new }
        ensures stays { OnErr result (self.new ≡ self.old) }
    {
        let text = unused_text(self.alloc, self)?;
        self.intern(&text)
    }
}

// A text that the table does not hold. Of one text more than there are names, not all are held; mostly the first is not,
// since each fresh name raises the count with which the numbers begin.
fn unused_text(alloc: Global, names: &Names) -> Result<String, NoMemory>
    ensures absent { IfOk result (λ t. IsAbsent (string_bytes t) names.now) }
    ensures short { IfOk result (λ t. length (string_bytes t) ≤ 40) }
    ensures ascii { IfOk result (λ t. IsAscii (string_bytes t)) }
{
    let count = names.texts.len();
    for number in count..2 * count + 1 {
        let text = format!(in alloc; "-{number}")?;
        let Some(_) = names.find(&text) else {
            return Ok(text);
        };
    }
    unreachable!()
}
