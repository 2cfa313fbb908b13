//! Rows of sessions in memory: each line of standard input says what a session is like, what its link gives, or that
//! it is to be served, and behind the last stands how it ended and what it wrote. Polls and puts can fail in turn.
#![tactic(auto)]

mod count_prover;
mod escapes;
mod faults;
mod rows;
mod scripts;
mod serving;
mod trials;

use crate::faults::Fault;
use crate::rows::answer;
use crate::scripts::Script;
use std::io;

fn main(rt: HostRuntime) -> io::Result<()> {
    let mut script = Script::new(rt.alloc());
    for line in rt.lines(rt.alloc()) {
        let line = line?;
        let row = line.as_str();
        match answer(rt.alloc(), &mut script, row) {
            Ok(told) => {
                let told = told.as_str();
                println!(rt; "{row}\n{told}")?;
            }
            Err(Fault::Blank) => println!(rt; "{row}")?,
            Err(fault) => println!(rt; "{row}: {fault}")?,
        }
    }
    Ok(())
}
