// The top call.
ghost use Rattle.std.specs.Prelude.{◌≡◌, ◌≢◌, ◌⊎◌, true, false, map, string_bytes, IsUtf8, Some, None, IfSome};
ghost use Rattle.ef_io.specs.Sink.{Stays};
ghost use Rattle.ef_front.specs.Words.{job_of};
ghost use Rattle.ef_front.specs.Lines.{image};
ghost use Rattle.ef_front.specs.Runs.{Prints, Counts, IsIdle};
ghost use Rattle.ef_front.specs.Created.{Creates};
ghost use Rattle.ef_front.specs.Parts.{Refuses, Reports};
ghost use Rattle.ef_front.specs.Printed.{IsLaidOut};
ghost use Rattle.ef_front.specs.Headline.{AllWorked, HaveOneList, ShowsFaults};

use crate::compiling::{Compiled, Stop, compile};
use crate::job::{Job, options};
use crate::listing::lines;
use crate::telling::{USAGE_LINE, deliver, give_up, tell, try_read_line};
use ef_base::{FaultList, NoMemory};
use ef_io::{Failed, Output, Sink, Sources, Status};
use std::alloc::Global;

/// Compiles the module that the words name: its faults are printed on `diag`, or its text is written to `output`.
/// Nothing is created but under status 0 and 5, and from the creation on no memory is taken.
pub fn erlfront<S: Sources, O: Output, G: Sink>(
    alloc: Global,
    words: &[String],
    sources: &mut S,
    output: &mut O,
    diag: &mut G,
) -> Status
    requires closed { (O.seen output.old).is_open ≡ false }
    requires is_open { (G.seen diag.old).is_open ≡ true }

    // The lines on `diag`.
    ensures prints { Prints result (job_of (map string_bytes words.now)) (S.seen sources.old).files (S.seen sources.new).failed (G.seen diag.old) (G.seen diag.new) }

    // The file that is created, and its text.
    ensures creates { Creates result (job_of (map string_bytes words.now)) (S.seen sources.old).files (O.seen output.old) (O.seen output.new) }

    // The counts of faults.
    ensures counts { Counts result (S.seen sources.old) (S.seen sources.new) (O.seen output.old).faults (O.seen output.new).faults (G.seen diag.old).faults (G.seen diag.new).faults }

    ensures told { (S.seen sources.new).files ≡ (S.seen sources.old).files }
    ensures stays { Stays (G.seen diag.old) (G.seen diag.new) }

    // Without a job nothing is read or created, and the usage line is told.
    ensures idle { job_of (map string_bytes words.now) ≡ None → IsIdle (S.seen sources.old) (S.seen sources.new) (O.seen output.old) (O.seen output.new) (G.seen diag.old) (G.seen diag.new) result }

    // Where no count rose and memory sufficed, exactly the faults are printed, or the text is written.
    ensures headline { AllWorked (S.seen sources.old) (S.seen sources.new) (O.seen output.old) (O.seen output.new) (G.seen diag.old) (G.seen diag.new) result
        → ShowsFaults (job_of (map string_bytes words.now)) (S.seen sources.old).files result (O.seen output.old) (O.seen output.new) (G.seen diag.old) (G.seen diag.new) }

    // The text that is written stands in the one layout.
    ensures laid_out { IsLaidOut result (O.seen output.new) }

    // The faults of an input are one list, so what is printed is settled by the files.
    ensures one_list { HaveOneList }
{
    start(alloc, words, sources, output, diag)
}

fn start<S: Sources, O: Output, G: Sink>(
    alloc: Global,
    words: &[String],
    sources: &mut S,
    output: &mut O,
    diag: &mut G,
) -> Status
    requires closed { (O.seen output.old).is_open ≡ false }
    requires is_open { (G.seen diag.old).is_open ≡ true }
    ensures prints { Prints result (job_of (map string_bytes words.now)) (S.seen sources.old).files (S.seen sources.new).failed (G.seen diag.old) (G.seen diag.new) }
    ensures creates { Creates result (job_of (map string_bytes words.now)) (S.seen sources.old).files (O.seen output.old) (O.seen output.new) }
    ensures counts { Counts result (S.seen sources.old) (S.seen sources.new) (O.seen output.old).faults (O.seen output.new).faults (G.seen diag.old).faults (G.seen diag.new).faults }
    ensures laid_out { IsLaidOut result (O.seen output.new) }
    ensures told { (S.seen sources.new).files ≡ (S.seen sources.old).files }
    ensures stays { Stays (G.seen diag.old) (G.seen diag.new) }
    ensures idle { job_of (map string_bytes words.now) ≡ None → IsIdle (S.seen sources.old) (S.seen sources.new) (O.seen output.old) (O.seen output.new) (G.seen diag.old) (G.seen diag.new) result }
{
    match options(alloc, words) {
        Err(NoMemory) => give_up(diag),
        Ok(None) => refuse(diag),
        Ok(Some(job)) => run(alloc, &job, sources, output, diag),
    }
}

fn refuse<G: Sink>(diag: &mut G) -> Status
    requires { (G.seen diag.old).is_open ≡ true }
    ensures refuses { Refuses (G.seen diag.old) (G.seen diag.new) result }
    ensures stays { Stays (G.seen diag.old) (G.seen diag.new) }
{
    match tell(diag, USAGE_LINE) {
        Ok(()) => Status::Words,
        Err(Failed) => Status::WriteFault,
    }
}

fn report<G: Sink>(alloc: Global, job: &Job, faults: &FaultList, diag: &mut G) -> Status
    requires { (G.seen diag.old).is_open ≡ true }
    ensures reports { Reports (image job.now.path faults.now) (G.seen diag.old) (G.seen diag.new) result }
    ensures stays { Stays (G.seen diag.old) (G.seen diag.new) }
{
    let Ok(text) = lines(alloc, job.path.as_slice(), faults) else {
        return give_up(diag);
    };
    match tell(diag, &text) {
        Ok(()) => Status::Faults,
        Err(Failed) => Status::WriteFault,
    }
}

fn run<S: Sources, O: Output, G: Sink>(
    alloc: Global,
    job: &Job,
    sources: &mut S,
    output: &mut O,
    diag: &mut G,
) -> Status
    requires path { IsUtf8 job.now.path }
    requires out { IsUtf8 job.now.out }
    requires closed { (O.seen output.old).is_open ≡ false }
    requires is_open { (G.seen diag.old).is_open ≡ true }
    ensures prints { Prints result (Some job.now) (S.seen sources.old).files (S.seen sources.new).failed (G.seen diag.old) (G.seen diag.new) }
    ensures creates { Creates result (Some job.now) (S.seen sources.old).files (O.seen output.old) (O.seen output.new) }
    ensures counts { Counts result (S.seen sources.old) (S.seen sources.new) (O.seen output.old).faults (O.seen output.new).faults (G.seen diag.old).faults (G.seen diag.new).faults }
    ensures laid_out { IsLaidOut result (O.seen output.new) }
    ensures told { (S.seen sources.new).files ≡ (S.seen sources.old).files }
    ensures stays { Stays (G.seen diag.old) (G.seen diag.new) }
{
    match compile(alloc, sources, &job.path) {
        Ok(Compiled::Module(lowered)) => deliver(&job.out, lowered, output, diag),
        Ok(Compiled::Faulty(faults)) => report(alloc, job, &faults, diag),
        Err(Stop::ReadFault(path)) => {
            try_read_line(diag, path.as_slice());
            Status::ReadFault
        }
        Err(Stop::NoMemory) => give_up(diag),
    }
}
