// The parts of a text, gathered as forms.
ghost use Rattle.std.specs.Prelude.{◌≡◌, ◌<◌, ◌≤◌, ◌^◌, ◌↔◌, List, ℕ, [], ◌∷◌, ◌++◌, IfOk, IfSome, IfNone, IsTrue, None, length, chars, encode_utf8_all};
ghost use Rattle.ef_base.specs.Texts.{Texts};
ghost use Rattle.ef_base.specs.Positions.{place_at};
ghost use Rattle.ef_base.specs.Cut.{Placed};
ghost use Rattle.ef_base.specs.declared.fault.Fault.{Fault};
ghost use Rattle.ef_token.specs.declared.token.ScannedForm.{ScannedForm};
ghost use Rattle.ef_token.specs.declared.token.Token.{Token};
ghost use Rattle.ef_token.specs.declared.token.TokenKind.{TokenKind};
ghost use Rattle.ef_token.specs.Lexeme.{IsKind, Lexeme};
ghost use Rattle.ef_token.specs.Parts.{Part, lexeme, comment, fault};
ghost use Rattle.ef_scan.specs.Scan.{HasCoding};
ghost use Rattle.ef_scan.specs.Gathered.{AreFormsOf, Gathers};

use crate::coding::has_coding;
use ef_base::codes::{LATIN, NO_FULL_STOP};
use ef_base::{Fault, NoMemory, Place};
use ef_token::{ScannedForm, Token, TokenKind};
use std::alloc::Global;

/// Forms that are ended or faulty, the tokens of one that is neither yet, and the place of the first comment that names
/// Latin-1.
#[derive(Drop)]
pub(crate) struct Gathered {
    pub done: Vec<ScannedForm>,
    pub open_form: Vec<Token>,
    pub latin: Option<Place>,
}

impl Gathered {
    pub(crate) fn new(alloc: Global) -> Gathered
        ensures { (all : Texts) (file : ℕ) → Gathers all file result [] }
    {
        Gathered {
            done: Vec::new(alloc),
            open_form: Vec::new(alloc),
            latin: None,
        }
    }

    /// One more lexeme, by its token.
    pub(crate) fn push(&mut self, alloc: Global, token: Token) -> Result<(), NoMemory>
        ensures { IfOk result (λ _. (all : Texts) (file : ℕ) (parts : List (Placed Part)) (p : Placed Part) (l : Lexeme) → p.lexeme ≡ lexeme l → token.place ≡ place_at file p.at → IsKind all l token.kind
            → Gathers all file self.old parts → Gathers all file self.new (parts ++ p ∷ [])) }
    {
        let ends = is_dot(&token.kind);
        self.open_form.push(token)?;
        if !ends {
            return Ok(());
        }
        let form = take_all(alloc, &mut self.open_form)?;
        self.done.push(ScannedForm::Tokens(form))?;
        Ok(())
    }

    /// One more comment.
    pub(crate) fn comment(&mut self, text: &str, place: Place)
        requires { length text.now < 2 ^ 32 }
        ensures { (all : Texts) (file : ℕ) (parts : List (Placed Part)) (p : Placed Part) (cs : List ℕ) → p.lexeme ≡ comment cs → text.now ≡ encode_utf8_all cs → place ≡ place_at file p.at
            → Gathers all file self.old parts → Gathers all file self.new (parts ++ p ∷ []) }
    {
        if self.names_latin(text, place) {
            self.latin = Some(place);
        }
    }

    // Whether this comment is the first in the first two lines that names Latin-1.
    fn names_latin(&self, text: &str, place: Place) -> bool
        requires { length text.now < 2 ^ 32 }
        ensures yes { IsTrue result → (self.now.latin ≡ None) × (place.line ≤ 2) × HasCoding (chars text.now) }
        ensures no { (self.now.latin ≡ None) × (place.line ≤ 2) × HasCoding (chars text.now) → IsTrue result }
    {
        self.latin.is_none() && place.line <= 2 && has_coding(text)
    }

    /// One more fault, which takes the place of the form that is not ended.
    pub(crate) fn fault(&mut self, alloc: Global, place: Place, code: u16) -> Result<(), NoMemory>
        ensures { IfOk result (λ _. (all : Texts) (file : ℕ) (parts : List (Placed Part)) (p : Placed Part) → p.lexeme ≡ fault code → place ≡ place_at file p.at
            → Gathers all file self.old parts → Gathers all file self.new (parts ++ p ∷ [])) }
    {
        self.open_form = Vec::new(alloc);
        self.done.push(faulty(alloc, place, code))?;
        Ok(())
    }

    /// The forms at the end of the file.
    pub(crate) fn finish(self, alloc: Global) -> Result<Vec<ScannedForm>, NoMemory>
        ensures { IfOk result (λ forms. (all : Texts) (file : ℕ) (parts : List (Placed Part)) → Gathers all file self parts → AreFormsOf all file parts forms.items) }
    {
        if let Some(place) = self.latin {
            return alone(alloc, place, LATIN);
        }
        match self.first_place() {
            None => Ok(self.done),
            Some(place) => with_form(self.done, faulty(alloc, place, NO_FULL_STOP)),
        }
    }

    // Where the form that is not ended begins.
    fn first_place(&self) -> Option<Place>
        ensures some { IfSome result (λ place. (t : Token) × (ts : List Token) × (self.now.open_form.items ≡ t ∷ ts) × (place ≡ t.place)) }
        ensures none { IfNone result (self.now.open_form.items ≡ []) }
    {
        match self.open_form.first() {
            Some(first) => Some(first.place),
            None => None,
        }
    }
}

// Moves the tokens into a vector of just their number; the room of the first one is kept for the next form.
fn take_all(alloc: Global, tokens: &mut Vec<Token>) -> Result<Vec<Token>, NoMemory>
    ensures { IfOk result (λ all. (all.items ≡ tokens.old.items) × (tokens.new.items ≡ [])) }
{
    let mut all = Vec::with_capacity(alloc, tokens.len())?;
    all.append(tokens)?;
    Ok(all)
}

fn is_dot(kind: &TokenKind) -> bool
    ensures { IsTrue result ↔ (kind.now ≡ TokenKind.Dot) }
{
    matches!(kind, TokenKind::Dot)
}

fn faulty(alloc: Global, place: Place, code: u16) -> ScannedForm
    ensures { (f : Fault) × (result ≡ ScannedForm.Faulty f) × (f.place ≡ place) × (f.code ≡ code) × (f.words ≡ []) }
{
    ScannedForm::Faulty(Fault::plain(alloc, place, code))
}

fn with_form(forms: Vec<ScannedForm>, form: ScannedForm) -> Result<Vec<ScannedForm>, NoMemory>
    ensures { IfOk result (λ more. more.items ≡ forms.items ++ form ∷ []) }
{
    let mut forms = forms;
    forms.push(form)?;
    Ok(forms)
}

/// One faulty form.
pub(crate) fn alone(alloc: Global, place: Place, code: u16) -> Result<Vec<ScannedForm>, NoMemory>
    ensures { IfOk result (λ forms. (f : Fault) × (forms.items ≡ ScannedForm.Faulty f ∷ []) × (f.place ≡ place) × (f.code ≡ code) × (f.words ≡ [])) }
{
    let mut forms = Vec::new(alloc);
    forms.push(faulty(alloc, place, code))?;
    Ok(forms)
}
