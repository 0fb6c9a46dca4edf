// A line with escapes, as the bytes that it stands for.
ghost use Rattle.std.specs.Prelude.{◌≡◌, ◌<◌, ◌≤◌, ◌++◌, ◌∷◌, [], None, IfOk, IfErr, OnOk, OnErr};
ghost use Rattle.cases.specs.Meets.{BeginsWith};

use crate::problem::Problem;
use std::alloc::Global;

// The most times of a repetition.
const MOST: usize = 10_000_000;

// What the bytes before belong to.
#[derive(Clone, Copy)]
enum State {
    Plain,
    Backslash,
    High,
    Low(u8),
    Count(usize),
}

// What is read so far, and where the open repetition begins and how often it stands.
#[derive(Drop)]
struct Reader {
    bytes: Vec<u8>,
    state: State,
    open: Option<(usize, usize)>,
}

/// Appends what the line stands for.
pub fn append_escaped(alloc: Global, line: &str, into: &mut Vec<u8>) -> Result<(), Problem>
    ensures appends { OnOk result (BeginsWith into.old.items into.new.items) }
    ensures stays { OnErr result (into.new.items ≡ into.old.items) }
{
    let mut reader = Reader {
        bytes: Vec::new(alloc),
        state: State::Plain,
        open: None,
    };
    for byte in line.as_bytes() {
        reader.step(alloc, *byte)?;
    }
    match (reader.state, reader.open) {
        (State::Plain, None) => Ok(into.extend_from_slice(&reader.bytes)?),
        _ => Err(Problem::Escape),
    }
}

impl Reader {
    fn step(&mut self, alloc: Global, byte: u8) -> Result<(), Problem> {
        self.state = match self.state {
            State::Plain if byte == b'\\' => State::Backslash,
            State::Plain => self.push(byte)?,
            State::Backslash => self.escape(alloc, byte)?,
            State::High => State::Low(digit(byte, 16)?),
            State::Low(high) => {
                let low = digit(byte, 16)?;
                self.push(high.wrapping_mul(16).wrapping_add(low))?
            }
            State::Count(times) if byte == b'*' => {
                self.open = Some((self.bytes.len(), times));
                State::Plain
            }
            State::Count(times) => State::Count(more(times, byte)?),
        };
        Ok(())
    }

    fn push(&mut self, byte: u8) -> Result<State, Problem>
        ensures { OnOk result (self.new.bytes.items ≡ self.old.bytes.items ++ byte ∷ []) }
    {
        self.bytes.push(byte)?;
        Ok(State::Plain)
    }

    // What stands behind a backslash.
    fn escape(&mut self, alloc: Global, byte: u8) -> Result<State, Problem> {
        match byte {
            b'\\' => self.push(byte),
            b'n' => self.push(b'\n'),
            b'x' => Ok(State::High),
            b'{' if self.open.is_none() => Ok(State::Count(0)),
            b'}' => self.close(alloc),
            _ => Err(Problem::Escape),
        }
    }

    fn close(&mut self, alloc: Global) -> Result<State, Problem>
        ensures { self.old.open ≡ None → IfErr result (λ problem. problem ≡ Problem.Escape) }
    {
        let Some((start, times)) = self.open else {
            return Err(Problem::Escape);
        };
        self.open = None;
        let piece = match self.bytes.get(start..) {
            Some(piece) => piece.to_vec(alloc)?,
            None => return Err(Problem::Escape),
        };
        self.bytes.truncate(start);
        for _ in 0..times {
            self.bytes.extend_from_slice(&piece)?;
        }
        Ok(State::Plain)
    }
}

// The number with one digit more.
fn more(times: usize, byte: u8) -> Result<usize, Problem>
    ensures { IfOk result (λ n. n ≤ 10000000) }
{
    let last = digit(byte, 10)?;
    let times = times.saturating_mul(10).saturating_add(usize::from(last));
    if times > MOST {
        return Err(Problem::Number);
    }
    Ok(times)
}

// The digit of this base, of which there are at most 16.
fn digit(byte: u8, base: u8) -> Result<u8, Problem>
    ensures { IfOk result (λ value. value < base) }
{
    let value = match byte {
        b'0'..=b'9' => byte - b'0',
        b'a'..=b'f' => byte - b'a' + 10,
        _ => return Err(Problem::Number),
    };
    if value < base {
        Ok(value)
    } else {
        Err(Problem::Number)
    }
}
