//! Names the axioms that files rest on.
ghost use Rattle.std.specs.Prelude.{◌≡◌, ◌++◌, [], fold, IfOk, OnOk, codes, string_bytes};
ghost use Rattle.prover_iface.specs.Listings.{spaced};
ghost use Rattle.batch_check.specs.Observers.{with_axioms, axioms_line};

use crate::digests::{FileDigest, note_names};
use crate::observers::Observer;
use base_core::{Bytes, Duplicate, List, NoMem, Text};
use indexmap::IndexSet;
use std::alloc::{AllocError, Global};
use std::marker::Model;

/// The observer named `axioms`.
#[derive(Debug, Drop)]
pub struct AxiomList {
    shown: Vec<FileDigest>,
}

impl Model for AxiomList {
    ghost use Rattle.std.specs.Prelude.{List};
    ghost use Rattle.std.specs.Coded.{coded_list};
    ghost use Rattle.batch_check.specs.declared.digests.FileDigest.{FileDigest as Digest};
    ghost use Rattle.batch_check.specs.contracts.digests.FileDigest as digest;

    ghost Value = { List Digest };

    ghost coded = { coded_list digest.the_row.coded };

    ghost view = { λ a. a.shown.items };
}

impl AxiomList {
    /// It was shown nothing yet.
    pub fn new(alloc: Global) -> AxiomList
        ensures { result ≡ [] }
    {
        AxiomList {
            shown: Vec::new(alloc),
        }
    }
}

fn note_digests(seen: &mut IndexSet<Text>, digests: &[FileDigest]) -> Result<(), NoMem>
    ensures { OnOk result (seen.new.keys ≡ fold with_axioms seen.old.keys digests.now) }
{
    for digest in digests {
        note_names(seen, digest.axioms.as_slice())?;
    }
    Ok(())
}

/// Each name with a blank before it.
fn add_spaced(line: &mut String, names: &[Text]) -> Result<(), AllocError>
    ensures { OnOk result (string_bytes line.new ≡ string_bytes line.old ++ spaced names.now) }
{
    for name in names {
        let name = name.as_str();
        write!(line, " {name}")?;
    }
    Ok(())
}

fn names_line(alloc: Global, names: &[Text]) -> Result<String, AllocError>
    ensures { IfOk result (λ line. string_bytes line ≡ codes "axioms:" ++ (spaced names.now ++ codes "\n")) }
{
    let mut line = String::from_str(alloc, "axioms:")?;
    add_spaced(&mut line, names)?;
    line.push_str("\n")?;
    Ok(line)
}

fn axioms_line(alloc: Global, digests: &[FileDigest]) -> Result<String, NoMem>
    ensures { IfOk result (λ line. string_bytes line ≡ axioms_line digests.now) }
{
    let mut seen = IndexSet::new(alloc);
    note_digests(&mut seen, digests)?;
    let line = names_line(alloc, seen.as_slice())?;
    Ok(line)
}

impl Observer for AxiomList {
    ghost shown = { λ list. list };

    ghost told = { λ list. axioms_line list };

    ghost title = { λ list. codes "axioms" };

    fn name(&self) -> &str {
        "axioms"
    }

    fn finished(&mut self, alloc: Global, digest: &FileDigest) -> Result<(), NoMem> {
        self.shown.push(digest.duplicate(alloc)?)?;
        Ok(())
    }

    fn summary(&self, alloc: Global) -> Result<Bytes, NoMem> {
        let line = axioms_line(alloc, self.shown.as_slice())?;
        Ok(List::from_vec(line.into_bytes()))
    }
}
