//! Rows that declare a global.
use crate::faults::Fault;
use crate::judgements::{add_stop, add_units};
use crate::notation::term;
use base_core::Text;
use cic_kernel::Kernel;
use cic_rules::{Decl, Declares, Fuel, GlobalEnv};
use core_term::Term;
use std::alloc::Global;

/// The units of each declaration.
const UNITS: u32 = 1000;

/// The global of a declaration is entered, where nothing refuses it.
fn declare(alloc: Global, env: &mut GlobalEnv, decl: &Decl) -> Result<String, Fault> {
    let mut fuel = Fuel::new(UNITS);
    let made = (Kernel {}).declare(alloc, env, decl, &mut fuel);
    let mut told = String::new(alloc);
    match made {
        Ok(made) => {
            *env = made;
            write!(told, "entered")?;
        }
        Err(stop) => add_stop(&mut told, stop)?,
    }
    add_units(&mut told, &fuel)?;
    Ok(told)
}

/// An assumption of a type.
pub fn assume(alloc: Global, env: &mut GlobalEnv, name: &str, ty: &str) -> Result<String, Fault> {
    let decl = Decl::Assume {
        name: Text::copy(alloc, name)?,
        ty: term(alloc, ty)?,
    };
    declare(alloc, env, &decl)
}

/// A theorem without a proof.
pub fn admit(alloc: Global, env: &mut GlobalEnv, name: &str, ty: &str) -> Result<String, Fault> {
    let decl = Decl::Admit {
        name: Text::copy(alloc, name)?,
        ty: term(alloc, ty)?,
    };
    declare(alloc, env, &decl)
}

/// A definition whose type is that of its value, or the one that is given.
pub fn define(
    alloc: Global,
    env: &mut GlobalEnv,
    name: &str,
    ty: Option<Term>,
    body: &str,
    opaque: bool,
) -> Result<String, Fault> {
    let decl = Decl::Define {
        name: Text::copy(alloc, name)?,
        ty,
        body: term(alloc, body)?,
        opaque,
    };
    declare(alloc, env, &decl)
}
