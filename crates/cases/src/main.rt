// Runs the cases of the files that its words name, over objects in memory, and prints those that differ.
#![tactic(auto)]

ghost use Rattle.std.specs.Prelude.{◌≡◌, if◌then◌else◌, OnOk};
ghost use Rattle.cases.specs.Count.{one_more, OneRises};

mod bounds;
mod case;
mod draft;
mod escaped;
mod outcome;
mod parse;
mod problem;
mod report;
mod tree;

use case::{Case, Tree};
use parse::parse;
use std::env::Env;
use std::io::Write;
use std::process::ExitCode;
use std::rt::Files;
use std::{env, fs, io};

// How many cases came to what they want, and how many did not. A file that is not read as cases counts as one.
#[derive(Drop)]
struct Count {
    passed: u64,
    failed: u64,
}

impl Count {
    // One more case.
    fn add(&mut self, passes: bool)
        ensures passed { self.new.passed ≡ (if passes then one_more self.old.passed else self.old.passed) }
        ensures failed { self.new.failed ≡ (if passes then self.old.failed else one_more self.old.failed) }
    {
        if passes {
            self.passed = self.passed.saturating_add(1);
        } else {
            self.failed = self.failed.saturating_add(1);
        }
    }
}

fn main(rt: HostRuntime) -> ExitCode {
    match run(&rt) {
        Ok(true) => ExitCode::SUCCESS,
        Ok(false) => ExitCode::from(1),
        Err(_) => ExitCode::from(2),
    }
}

// Whether a case passed and none failed.
fn run<R: Files + Env + Print + AllocGlobal>(rt: &R) -> io::Result<bool> {
    let mut count = Count {
        passed: 0,
        failed: 0,
    };
    for path in env::args(rt)?.skip(1) {
        run_file(rt, path.as_str(), &mut count)?;
    }
    let Count { passed, failed } = count;
    println!(rt; "{passed} passed, {failed} failed")?;
    Ok(passed > 0 && failed == 0)
}

fn run_file<R: Files + Print + AllocGlobal>(
    rt: &R,
    path: &str,
    count: &mut Count,
) -> io::Result<()> {
    let alloc = rt.alloc();
    let Ok(text) = fs::read_to_string(rt, path) else {
        count.add(false);
        return println!(rt; "{path}: not read");
    };
    match parse(alloc, text.as_str()) {
        Ok(cases) => {
            for case in &cases {
                run_case(rt, path, case, count)?;
            }
            Ok(())
        }
        Err(broken) => {
            count.add(false);
            let line = broken.line;
            let problem = broken.problem.text();
            println!(rt; "{path}:{line}: {problem}")
        }
    }
}

fn run_case<R: Files + Print + AllocGlobal>(
    rt: &R,
    path: &str,
    case: &Case,
    count: &mut Count,
) -> io::Result<()>
    ensures { OnOk result (OneRises count.old.passed count.old.failed count.new.passed count.new.failed) }
{
    if let Some(tree) = &case.tree {
        return run_tree(rt, path, case, tree, count);
    }
    let alloc = rt.alloc();
    let Ok(outcome) = outcome::run(alloc, case) else {
        return Err(io::ErrorKind::OutOfMemory.into());
    };
    let line = case.line;
    if !outcome.meets(case) {
        count.add(false);
        let Ok(text) = report::report(alloc, path, case, &outcome) else {
            return Err(io::ErrorKind::OutOfMemory.into());
        };
        return io::writer(rt).write_all(&text);
    }
    if case.is_bounded && !bounds::are_bounded(alloc, case) {
        count.add(false);
        let name = case.name.as_str();
        return println!(rt; "{path}:{line}: {name}\nwanted bounded");
    }
    count.add(true);
    Ok(())
}

fn run_tree<R: Print + AllocGlobal>(
    rt: &R,
    path: &str,
    case: &Case,
    tree: &Tree,
    count: &mut Count,
) -> io::Result<()>
    ensures { OnOk result (OneRises count.old.passed count.old.failed count.new.passed count.new.failed) }
{
    let alloc = rt.alloc();
    let Ok(nodes) = tree::trees(alloc, &tree.form) else {
        return Err(io::ErrorKind::OutOfMemory.into());
    };
    let passes = nodes == tree.nodes;
    count.add(passes);
    if passes {
        return Ok(());
    }
    let line = case.line;
    let name = case.name.as_str();
    println!(rt; "{path}:{line}: {name}\nwanted other nodes than these:")?;
    io::writer(rt).write_all(&nodes)
}
