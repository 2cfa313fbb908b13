//! What an observer is shown of a file.
ghost use Rattle.std.specs.Prelude.{◌≡◌, fold, IfOk, OnOk};
ghost use Rattle.prover_iface.specs.Listings.{lists_axioms};
ghost use Rattle.batch_check.specs.Digests.{with_names, with_item, outline_axioms, digest_of, is_clean};

use crate::reports::{admission_count, error_count};
use base_core::{Duplicate, NoMem, Text, TextList};
use doc_check::Report;
use indexmap::IndexSet;
use prover_iface::{ItemKind, OutlineItem};
use std::alloc::Global;

/// A file in short.
#[derive(Debug, Drop)]
pub struct FileDigest {
    pub name: Text,
    pub errors: u64,
    pub admissions: u64,
    /// The axioms in the brackets of its outline, each once, in the order in which they first appear.
    pub axioms: TextList,
}

impl Duplicate for FileDigest {
    fn duplicate(&self, alloc: Global) -> Result<FileDigest, NoMem> {
        Ok(FileDigest {
            name: self.name.share()?,
            errors: self.errors,
            admissions: self.admissions,
            axioms: self.axioms.copied(alloc)?,
        })
    }
}

/// Puts those names behind the others that are not there yet.
pub(crate) fn note_names(seen: &mut IndexSet<Text>, names: &[Text]) -> Result<(), NoMem>
    ensures { OnOk result (seen.new.keys ≡ with_names seen.old.keys names.now) }
{
    for name in names {
        seen.insert(name.share()?)?;
    }
    Ok(())
}

/// Whether the line of such a declaration has a bracket for its axioms.
fn lists_axioms(kind: ItemKind) -> bool
    ensures { result ≡ lists_axioms kind }
{
    match kind {
        ItemKind::Axiom => false,
        ItemKind::Definition => true,
        ItemKind::Inductive => false,
        ItemKind::Theorem => true,
        ItemKind::Admitted => false,
    }
}

fn note_item(seen: &mut IndexSet<Text>, item: &OutlineItem) -> Result<(), NoMem>
    ensures { OnOk result (seen.new.keys ≡ with_item seen.old.keys item.now) }
{
    if lists_axioms(item.kind) {
        note_names(seen, item.axioms.as_slice())
    } else {
        Ok(())
    }
}

fn note_items(seen: &mut IndexSet<Text>, items: &[OutlineItem]) -> Result<(), NoMem>
    ensures { OnOk result (seen.new.keys ≡ fold with_item seen.old.keys items.now) }
{
    for item in items {
        note_item(seen, item)?;
    }
    Ok(())
}

fn shared_names(alloc: Global, names: &[Text]) -> Result<TextList, NoMem>
    ensures { IfOk result (λ list. list ≡ names.now) }
{
    let mut list = TextList::new(alloc);
    for name in names {
        list.push(name.share()?)?;
    }
    Ok(list)
}

fn outline_axioms(alloc: Global, items: &[OutlineItem]) -> Result<TextList, NoMem>
    ensures { IfOk result (λ names. names ≡ outline_axioms items.now) }
{
    let mut seen = IndexSet::new(alloc);
    note_items(&mut seen, items)?;
    shared_names(alloc, seen.as_slice())
}

/// The digest of the file of this name, by what is told of its text.
pub(crate) fn digest_of(alloc: Global, name: &str, report: &Report) -> Result<FileDigest, NoMem>
    ensures { IfOk result (λ digest. digest ≡ digest_of name.now report.now) }
{
    let items = report.outline.as_slice();
    Ok(FileDigest {
        name: Text::copy(alloc, name)?,
        errors: error_count(report.diags.as_slice()) as u64,
        admissions: admission_count(items) as u64,
        axioms: outline_axioms(alloc, items)?,
    })
}

/// Whether a file has neither an error nor an admission.
pub(crate) fn is_clean(digest: &FileDigest) -> bool
    ensures { result ≡ is_clean digest.now }
{
    digest.errors == 0 && digest.admissions == 0
}
