// The words of the command line.
ghost use Rattle.std.specs.Prelude.{◌≡◌, IfOk, IfSome, map, string_bytes, IsUtf8};
ghost use Rattle.ef_front.specs.Words.{job_of, stem_of, out_of, is_plain};

use ef_base::{Bytes, NoMemory};
use std::alloc::Global;

/// What the words ask for: the file to be compiled and the file to be written.
#[derive(Drop)]
pub struct Job {
    pub path: Bytes,
    pub out: Bytes,
}

/// The job of the words, if they give one.
pub fn options(alloc: Global, words: &[String]) -> Result<Option<Job>, NoMemory>
    ensures job { IfOk result (λ job. job ≡ job_of (map string_bytes words.now)) }
    ensures texts { IfOk result (λ job. IfSome job (λ job. IsUtf8 job.path × IsUtf8 job.out)) }
{
    let [word] = words else {
        return Ok(None);
    };
    let word = word.as_str();
    if !is_plain(word.as_bytes()) {
        return Ok(None);
    }
    let path = String::from_str(alloc, word)?;
    let out = out_path(alloc, word)?;
    Ok(Some(Job {
        path: bytes_of(path),
        out: bytes_of(out),
    }))
}

fn is_plain(word: &[u8]) -> bool
    ensures { result ≡ is_plain word.now }
{
    match word {
        [] => false,
        [b'-', _, ..] => false,
        _ => true,
    }
}

fn out_path(alloc: Global, path: &str) -> Result<String, NoMemory>
    ensures { IfOk result (λ out. string_bytes out ≡ out_of path.now) }
{
    let mut out = String::from_str(alloc, stem(path))?;
    out.push_str(".core")?;
    Ok(out)
}

// The path without a last `.erl`.
fn stem(path: &str) -> &str
    ensures { result.now ≡ stem_of path.now }
{
    match path.strip_suffix(".erl") {
        Some(stem) => stem,
        None => path,
    }
}

// The bytes of a text.
fn bytes_of(text: String) -> Bytes
    ensures same { result ≡ string_bytes text }
    ensures utf8 { IsUtf8 result }
{
    let _text = text.as_str();
    Bytes::from_vec(text.into_bytes())
}
