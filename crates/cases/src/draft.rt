// The lines of one case.
ghost use Rattle.std.specs.Prelude.{◌≡◌, ◌⊎◌, true, None, IfOk, IfErr, string_bytes};

use crate::case::{Case, Text, Tree, Trouble, Wanted};
use crate::escaped::append_escaped;
use crate::problem::Problem;
use ef_io::Status;
use std::alloc::Global;
use std::mem;

// The bytes that an output takes where no room is named.
const ROOM: usize = 1_000_000;

// What stands behind the definitions of a short form.
const CORE_END: &str = "'module_info'/0 = fun () -> call 'erlang':'get_module_info'('r')
'module_info'/1 = fun (_0) -> call 'erlang':'get_module_info'('r', _0)
end
";

// What lines of text belong to.
#[derive(Drop)]
enum Part {
    Nothing,
    File(String),
    Printed,
    Whole(String),
    Begun(String),
    // The definitions of a short form, whose module is r.
    Core,
    // A form, and the nodes of its tree.
    Form,
    Nodes,
}

/// A case of which some lines are read.
#[derive(Drop)]
pub struct Draft {
    case: Case,
    part: Part,
    // The lines of text of the part.
    text: Vec<u8>,
    has_words: bool,
    status: Option<Status>,
    // The arity of the function of a short form.
    arity: Option<String>,
    // The form whose tree is wanted.
    form: Vec<u8>,
}

impl Draft {
    /// A case of which only its first line is read.
    pub fn new(alloc: Global, line: u64, name: &str) -> Result<Draft, Problem>
        ensures line { IfOk result (λ draft. draft.case.line ≡ line) }
        ensures name { IfOk result (λ draft. string_bytes draft.case.name ≡ name.now) }
        ensures memory { IfErr result (λ problem. problem ≡ Problem.NoMemory) }
    {
        let trouble = Trouble {
            reads: Vec::new(alloc),
            writes: Vec::new(alloc),
            prints: Vec::new(alloc),
            room: ROOM,
        };
        let case = Case {
            line,
            name: String::from_str(alloc, name)?,
            words: Vec::new(alloc),
            files: Vec::new(alloc),
            trouble,
            status: Status::Written,
            printed: Vec::new(alloc),
            created: Wanted::Any,
            tree: None,
            is_bounded: false,
        };
        Ok(Draft {
            case,
            part: Part::Nothing,
            text: Vec::new(alloc),
            has_words: false,
            status: None,
            arity: None,
            form: Vec::new(alloc),
        })
    }

    /// One more line, which begins no case.
    pub fn read(&mut self, alloc: Global, line: &str) -> Result<(), Problem> {
        if line == "|" {
            return self.add(alloc, "\\n");
        }
        if let Some(text) = line.strip_prefix("| ") {
            self.add(alloc, "")?;
            self.text.extend_from_slice(text.as_bytes())?;
            return Ok(self.text.push(b'\n')?);
        }
        if let Some(text) = line.strip_prefix("\\ ") {
            return self.add(alloc, text);
        }
        self.end_part(alloc)?;
        match line.split_once(' ') {
            Some((word, rest)) => self.pair(alloc, word, rest),
            None => self.word(alloc, line),
        }
    }

    /// The whole case.
    pub fn finish(self, alloc: Global) -> Result<Case, Problem>
        ensures line { IfOk result (λ case. case.line ≡ self.case.line) }
        ensures name { IfOk result (λ case. case.name ≡ self.case.name) }
        ensures problem { IfErr result (λ problem. (problem ≡ Problem.Empty) ⊎ (problem ≡ Problem.NoMemory)) }
    {
        let mut draft = self;
        draft.end_part(alloc)?;
        let mut case = draft.case;
        if !draft.has_words && case.tree.is_none() {
            let Some(file) = case.files.first() else {
                return Err(Problem::Empty);
            };
            case.words.push(file.path.clone()?)?;
        }
        case.status = match draft.status {
            Some(status) => status,
            None if case.printed.is_empty() => Status::Written,
            None => Status::Faults,
        };
        Ok(case)
    }

    // Appends what the escaped text stands for.
    fn add(&mut self, alloc: Global, text: &str) -> Result<(), Problem>
        ensures { self.old.part ≡ Part.Nothing → IfErr result (λ problem. problem ≡ Problem.Stray) }
    {
        if let Part::Nothing = self.part {
            return Err(Problem::Stray);
        }
        append_escaped(alloc, text, &mut self.text)
    }

    // Puts the lines of text where they belong.
    fn end_part(&mut self, alloc: Global) -> Result<(), Problem>
        ensures line { self.new.case.line ≡ self.old.case.line }
        ensures name { self.new.case.name ≡ self.old.case.name }
        ensures memory { IfErr result (λ problem. problem ≡ Problem.NoMemory) }
    {
        let mut bytes = mem::replace(&mut self.text, Vec::new(alloc));
        match mem::replace(&mut self.part, Part::Nothing) {
            Part::Nothing => {}
            Part::File(path) => self.case.files.push(Text { path, bytes })?,
            Part::Printed => self.case.printed = bytes,
            Part::Whole(path) => self.case.created = Wanted::Whole(Text { path, bytes }),
            Part::Begun(path) => self.case.created = Wanted::Begun(Text { path, bytes }),
            Part::Core => {
                bytes.extend_from_slice(CORE_END.as_bytes())?;
                let path = String::from_str(alloc, "r.core")?;
                self.case.created = Wanted::Whole(Text { path, bytes });
            }
            Part::Form => self.form = bytes,
            Part::Nodes => {
                let form = mem::replace(&mut self.form, Vec::new(alloc));
                self.case.tree = Some(Tree { form, nodes: bytes });
            }
        }
        Ok(())
    }

    // A line of one word.
    fn word(&mut self, alloc: Global, word: &str) -> Result<(), Problem> {
        match word {
            "printed" => self.part = Part::Printed,
            "bounded" => self.case.is_bounded = true,
            "word" => self.add_word(alloc, "")?,
            "core" => self.begin_core(alloc)?,
            "form" => self.part = Part::Form,
            "tree" => self.part = Part::Nodes,
            _ => self.begin_short(alloc, word)?,
        }
        Ok(())
    }

    // A line of a word and what stands behind it.
    fn pair(&mut self, alloc: Global, word: &str, rest: &str) -> Result<(), Problem> {
        match word {
            "file" => self.part = Part::File(String::from_str(alloc, rest)?),
            "created" => self.part = Part::Whole(String::from_str(alloc, rest)?),
            "begun" => self.part = Part::Begun(String::from_str(alloc, rest)?),
            "word" => self.add_word(alloc, rest)?,
            "no" if rest == "words" => self.has_words = true,
            "status" => self.status = Some(status(rest)?),
            "room" => self.case.trouble.room = number(rest)?,
            "reads" => add_numbers(rest, &mut self.case.trouble.reads)?,
            "writes" => add_numbers(rest, &mut self.case.trouble.writes)?,
            "prints" => add_numbers(rest, &mut self.case.trouble.prints)?,
            _ => return Err(Problem::Word),
        }
        Ok(())
    }

    fn add_word(&mut self, alloc: Global, word: &str) -> Result<(), Problem>
        ensures has { self.new.has_words ≡ true }
        ensures memory { IfErr result (λ problem. problem ≡ Problem.NoMemory) }
    {
        self.has_words = true;
        self.case.words.push(String::from_str(alloc, word)?)?;
        Ok(())
    }

    // The lines of r.erl from the third on.
    fn begin_short(&mut self, alloc: Global, word: &str) -> Result<(), Problem> {
        let Some(arity) = word.strip_prefix("f/") else {
            return Err(Problem::Word);
        };
        let _: u8 = arity.parse().map_err(|_| Problem::Number)?;
        let head = format!(in alloc; "-module(r).\n-export([f/{arity}]).\n")?;
        self.text.extend_from_slice(head.as_bytes())?;
        self.arity = Some(String::from_str(alloc, arity)?);
        self.part = Part::File(String::from_str(alloc, "r.erl")?);
        Ok(())
    }

    // The definitions of what r.core defines beside `module_info`.
    fn begin_core(&mut self, alloc: Global) -> Result<(), Problem>
        ensures { self.old.arity ≡ None → IfErr result (λ problem. problem ≡ Problem.Short) }
    {
        let Some(arity) = &self.arity else {
            return Err(Problem::Short);
        };
        let head = format!(in alloc;
            "module 'r' ['f'/{arity}, 'module_info'/0, 'module_info'/1]\nattributes []\n"
        )?;
        self.text.extend_from_slice(head.as_bytes())?;
        self.part = Part::Core;
        Ok(())
    }
}

// The status of this number.
fn status(text: &str) -> Result<Status, Problem>
    ensures { IfErr result (λ problem. problem ≡ Problem.Number) }
{
    match text {
        "0" => Ok(Status::Written),
        "1" => Ok(Status::Faults),
        "2" => Ok(Status::Words),
        "3" => Ok(Status::NoMemory),
        "4" => Ok(Status::ReadFault),
        "5" => Ok(Status::WriteFault),
        _ => Err(Problem::Number),
    }
}

fn number(text: &str) -> Result<usize, Problem>
    ensures { IfErr result (λ problem. problem ≡ Problem.Number) }
{
    match text.parse::<u32>() {
        Ok(value) => Ok(value as usize),
        Err(_) => Err(Problem::Number),
    }
}

// Appends the numbers of the text, with blanks between.
fn add_numbers(text: &str, into: &mut Vec<u64>) -> Result<(), Problem> {
    for word in text.split_whitespace() {
        match word.parse::<u64>() {
            Ok(value) => into.push(value)?,
            Err(_) => return Err(Problem::Number),
        }
    }
    Ok(())
}
