//! The same session in one circumstance after another.
use crate::escapes::shown;
use crate::scripts::{Cut, Script, Setting};
use crate::serving::{Served, serve_script};
use base_core::NoMem;
use std::alloc::{AllocError, Global};

/// What is tried in turn.
#[derive(Clone, Copy, Debug, PartialEq, Eq)]
pub enum Trial {
    /// The poll of a number fails.
    Poll,
    /// The put of a number fails.
    Put,
    /// The bytes are cut at a place.
    Cut,
}

/// A session: its status, what a prover that counts worked, and what was written.
pub fn told_once(alloc: Global, script: &Script) -> Result<String, NoMem> {
    let served = serve_script(alloc, script, &script.setting)?;
    let (status, worked) = (served.status, served.worked);
    let written = shown(alloc, served.written.as_slice())?;
    let written = written.as_str();
    Ok(format!(in alloc; "=> {status}, worked {worked}{written}")?)
}

/// The circumstances of a trial: the polls and puts before that of a number serve.
fn tried(setting: &Setting, trial: Trial, number: u32) -> Setting {
    match trial {
        Trial::Poll => Setting {
            polls: number as usize,
            ..*setting
        },
        Trial::Put => Setting {
            failing_put: number.saturating_add(1),
            ..*setting
        },
        Trial::Cut => Setting {
            cut: Cut::At(number as usize),
            ..*setting
        },
    }
}

/// Adds how a session ended and how much it wrote, with a `!` where that is no first part of what the whole one wrote.
fn add_trial(told: &mut String, served: &Served, whole: &Served) -> Result<(), AllocError> {
    let (status, length) = (served.status, served.written.len());
    let mark = if whole
        .written
        .as_slice()
        .starts_with(served.written.as_slice())
    {
        ""
    } else {
        "!"
    };
    write!(told, " {status}:{length}{mark}")
}

/// Whether a trial is the last: no poll or put has that number, or no byte stands there.
fn is_last(trial: Trial, served: &Served, number: u32, bytes: usize) -> bool {
    match trial {
        Trial::Poll => !served.faulty,
        Trial::Put => !served.faulty,
        Trial::Cut => number as usize >= bytes,
    }
}

/// All trials, each told by its status and the number of bytes that it wrote, and last the session as it is.
pub fn told_each(alloc: Global, script: &Script, trial: Trial) -> Result<String, NoMem> {
    let whole = serve_script(alloc, script, &script.setting)?;
    let bytes = script.byte_count();
    let mut told = String::from_str(alloc, "=>")?;
    for number in 0..u32::MAX {
        let served = serve_script(alloc, script, &tried(&script.setting, trial, number))?;
        add_trial(&mut told, &served, &whole)?;
        if is_last(trial, &served, number, bytes) {
            break;
        }
    }
    Ok(told)
}
