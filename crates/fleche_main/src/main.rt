//! Checks proof documents: `check FILE ..` writes what files declare and which of their sentences are refused, `serve` does so
//! for an editor while they are written, and `gen N` checks a document that it makes.
#![tactic(auto)]

ghost use Rattle.std.specs.Prelude.{◌≡◌, ◌<◌};

mod documents;
mod generated;
mod run;
mod words;

use base_core::{DirFiles, FileSet, Link, NoMem, Sink, Status, StdLink, StdSink, Steps};
use batch_check::{AxiomList, Observer, Tally};
use std::alloc::Global;
use std::env;
use std::io::ErrorKind;
use std::marker::Brand;
use std::process::ExitCode;
use std::rt::{Env, Files};
use std::sync::ledger::{Blank, Ledger};

const USAGE: &str = "usage: fleche serve [--paced] | check {--observe NAME} FILE {FILE} | gen N\n";

/// The words of the command line behind the program's name. One that isn't UTF-8 makes them no form.
fn command_line<R: Env + AllocGlobal>(rt: &R) -> Result<Vec<String>, u8> {
    let words = match env::args(rt) {
        Ok(words) => words,
        Err(error) if error.kind() == ErrorKind::InvalidData => return Err(Status::NoForm.number()),
        Err(_) => return Err(Status::OutOfMemory.number()),
    };
    match words.skip(1).collect(rt.alloc()) {
        Ok(words) => Ok(words),
        Err(_) => Err(Status::OutOfMemory.number()),
    }
}

/// Runs the words over a ledger of its own, which counts the work.
fn counted<C: Ledger, L: Link, S: Sink, F: FileSet, O: Observer>(
    alloc: Global,
    words: &[String],
    link: &mut L,
    out: &mut S,
    files: &mut F,
    watch: &mut Vec<O>,
    blank: Blank,
) -> u8
    requires name { blank.name ≡ C.name }
    requires parts { blank.parts ≡ C.parts }
    requires some { 0 < C.parts }
{
    let mut steps: Steps<C> = Steps::new(blank);
    run::run(alloc, words, link, out, files, watch, &mut steps)
}

/// Runs the words over standard input, standard output and files, with the observers that they may name: `tally` and `axioms`.
fn run_words(rt: &HostRuntime, words: &[String]) -> Result<u8, NoMem> {
    let alloc = rt.alloc();
    let mut watch: Vec<Box<dyn Observer>> = Vec::new(alloc);
    let tally: Box<dyn Observer> = Box::new(alloc, Tally::new(alloc))?;
    watch.push(tally)?;
    let axioms: Box<dyn Observer> = Box::new(alloc, AxiomList::new(alloc))?;
    watch.push(axioms)?;
    let mut link = StdLink::new(rt, alloc)?;
    let mut out = StdSink::new(rt);
    let mut files = DirFiles::new(rt);
    Ok(counted::<Brand, _, _, _, _>(
        alloc,
        words,
        &mut link,
        &mut out,
        &mut files,
        &mut watch,
        Blank::new(1),
    ))
}

/// The exit status of the words: want of memory before they are run is that of a run too.
fn status_of(rt: &HostRuntime, words: &[String]) -> u8 {
    match run_words(rt, words) {
        Ok(status) => status,
        Err(NoMem) => Status::OutOfMemory.number(),
    }
}

/// What standard error is told of a run that did not come to its end: the exit status in words.
const REMARKS: [(Status, &str); 6] = [
    (Status::NoForm, USAGE),
    (Status::OutOfMemory, "fleche: out of memory\n"),
    (
        Status::NotWritten,
        "fleche: standard output can't be written\n",
    ),
    (Status::NotRead, "fleche: the next file can't be read\n"),
    (
        Status::NotText,
        "fleche: the next file is no UTF-8 text of at most 1,048,576 bytes\n",
    ),
    (
        Status::FrameFault,
        "fleche: what came is no message with a header\n",
    ),
];

fn remark(status: u8) -> &'static str {
    for (end, told) in REMARKS {
        if end.number() == status {
            return told;
        }
    }
    ""
}

fn main(rt: HostRuntime) -> ExitCode {
    let status = match command_line(&rt) {
        Ok(words) => status_of(&rt, words.as_slice()),
        Err(status) => status,
    };
    let _ = rt.eprint(remark(status));
    ExitCode::from(status)
}
