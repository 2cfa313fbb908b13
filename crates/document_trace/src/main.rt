//! Tells what each sentence of the document on standard input costs, what is told of it and which goals stand behind
//! it, and last what the document declares. Tests compare it: `check` says nothing of costs and goals.
#![tactic(auto)]

ghost use Rattle.std.specs.Prelude.{◌≡◌, ◌<◌, ◌≤◌, length};
ghost use Rattle.base_core.specs.declared.limits.TheConstants.{TEXT_LIMIT};

mod lines;
mod traces;

use crate::traces::traced;
use base_core::TEXT_LIMIT;
use cic_prover::CicProver;
use std::alloc::Global;
use std::io;
use std::marker::Brand;
use std::process::ExitCode;
use std::sync::ledger::Blank;

/// What is told of the document on standard input: exit status 7 where it is no text or too long, 4
/// where memory ran out.
fn trace_of_input(rt: &HostRuntime) -> Result<String, u8> {
    let Ok(text) = io::read_to_string(rt.alloc(), rt.reader()) else {
        return Err(7);
    };
    if text.len() > TEXT_LIMIT {
        return Err(7);
    }
    match traced::<Brand, _>(rt.alloc(), &CicProver::new(), &text, Blank::new(1)) {
        Ok(lines) => Ok(lines),
        Err(_) => Err(4),
    }
}

fn main(rt: HostRuntime) -> ExitCode {
    match trace_of_input(&rt) {
        Ok(lines) => {
            let lines = lines.as_str();
            match print!(rt; "{lines}") {
                Ok(()) => ExitCode::from(0),
                Err(_) => ExitCode::from(5),
            }
        }
        Err(status) => ExitCode::from(status),
    }
}
