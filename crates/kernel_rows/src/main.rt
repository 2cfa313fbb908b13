//! Rows of the kernel: each line of standard input asks for a judgement or a declaration, and what the
//! kernel answers is written behind it, with the units that it took. Tests compare it.
#![tactic(auto)]

mod faults;
mod globals;
mod judgements;
mod notation;
mod rows;

use crate::faults::Fault;
use crate::rows::answer;
use cic_rules::GlobalEnv;
use std::io;

fn main(rt: HostRuntime) -> io::Result<()> {
    let mut env = GlobalEnv::empty();
    for line in rt.lines(rt.alloc()) {
        let line = line?;
        let row = line.as_str();
        match answer(rt.alloc(), &mut env, row) {
            Ok(told) => {
                let told = told.as_str();
                println!(rt; "{row} => {told}")?;
            }
            Err(Fault::Blank) => println!(rt; "{row}")?,
            Err(fault) => println!(rt; "{row}: {fault}")?,
        }
    }
    Ok(())
}
