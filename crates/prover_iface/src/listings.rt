//! How the axioms of a declaration are listed behind its statement.
ghost use Rattle.std.specs.Prelude.{◌≡◌, ◌++◌, OnOk, string_bytes};
ghost use Rattle.prover_iface.specs.Listings.{lists_axioms, spaced, bracket, listed_axioms};

use crate::{ItemKind, OutlineItem};
use base_core::Text;
use std::alloc::AllocError;

/// Whether the axioms of such a declaration are listed.
fn lists_axioms(kind: ItemKind) -> bool
    ensures { result ≡ lists_axioms kind }
{
    match kind {
        ItemKind::Axiom => false,
        ItemKind::Definition => true,
        ItemKind::Inductive => false,
        ItemKind::Theorem => true,
        ItemKind::Admitted => false,
    }
}

/// Each name with a blank before it.
fn add_spaced(lines: &mut String, names: &[Text]) -> Result<(), AllocError>
    ensures { OnOk result (string_bytes lines.new ≡ string_bytes lines.old ++ spaced names.now) }
{
    for name in names {
        let name = name.as_str();
        write!(lines, " {name}")?;
    }
    Ok(())
}

/// ` [` the names `]`, where there are some.
fn add_bracket(lines: &mut String, names: &[Text]) -> Result<(), AllocError>
    ensures { OnOk result (string_bytes lines.new ≡ string_bytes lines.old ++ bracket names.now) }
{
    match names {
        [] => Ok(()),
        [first, others @ ..] => {
            let first = first.as_str();
            write!(lines, " [{first}")?;
            add_spaced(lines, others)?;
            write!(lines, "]")
        }
    }
}

/// Adds ` [` the names of its axioms `]`, where the declaration is one whose axioms are listed and there are some.
pub fn add_listed_axioms(lines: &mut String, item: &OutlineItem) -> Result<(), AllocError>
    ensures { OnOk result (string_bytes lines.new ≡ string_bytes lines.old ++ listed_axioms item.now) }
{
    if lists_axioms(item.kind) {
        add_bracket(lines, item.axioms.as_slice())
    } else {
        Ok(())
    }
}
