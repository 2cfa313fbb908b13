//! Counts files, errors and admissions.
ghost use Rattle.std.specs.Prelude.{◌≡◌, [], IfOk, length, string_bytes, codes};
ghost use Rattle.batch_check.specs.Observers.{all_errors, all_admissions, tally_line};

use crate::digests::FileDigest;
use crate::observers::Observer;
use base_core::{Bytes, Duplicate, List, NoMem};
use std::alloc::{AllocError, Global};
use std::marker::Model;

/// The observer named `tally`.
#[derive(Debug, Drop)]
pub struct Tally {
    shown: Vec<FileDigest>,
}

impl Model for Tally {
    ghost use Rattle.std.specs.Prelude.{List};
    ghost use Rattle.std.specs.Coded.{coded_list};
    ghost use Rattle.batch_check.specs.declared.digests.FileDigest.{FileDigest as Digest};
    ghost use Rattle.batch_check.specs.contracts.digests.FileDigest as digest;

    ghost Value = { List Digest };

    ghost coded = { coded_list digest.the_row.coded };

    ghost view = { λ a. a.shown.items };
}

impl Tally {
    /// It was shown nothing yet.
    pub fn new(alloc: Global) -> Tally
        ensures { result ≡ [] }
    {
        Tally {
            shown: Vec::new(alloc),
        }
    }
}

fn all_errors(digests: &[FileDigest]) -> u128
    ensures { result ≡ all_errors digests.now }
{
    let mut sum: u128 = 0;
    for digest in digests {
        sum += u128::from(digest.errors);
    }
    sum
}

fn all_admissions(digests: &[FileDigest]) -> u128
    ensures { result ≡ all_admissions digests.now }
{
    let mut sum: u128 = 0;
    for digest in digests {
        sum += u128::from(digest.admissions);
    }
    sum
}

fn tally_line(alloc: Global, digests: &[FileDigest]) -> Result<String, AllocError>
    ensures { IfOk result (λ line. string_bytes line ≡ tally_line digests.now) }
{
    let files = digests.len();
    let errors = all_errors(digests);
    let admissions = all_admissions(digests);
    let mut line = String::new(alloc);
    write!(
        &mut line,
        "tally: {files} files {errors} errors {admissions} admissions\n"
    )?;
    Ok(line)
}

impl Observer for Tally {
    ghost shown = { λ tally. tally };

    ghost told = { λ tally. tally_line tally };

    ghost title = { λ tally. codes "tally" };

    fn name(&self) -> &str {
        "tally"
    }

    fn finished(&mut self, alloc: Global, digest: &FileDigest) -> Result<(), NoMem> {
        self.shown.push(digest.duplicate(alloc)?)?;
        Ok(())
    }

    fn summary(&self, alloc: Global) -> Result<Bytes, NoMem> {
        let line = tally_line(alloc, self.shown.as_slice())?;
        Ok(List::from_vec(line.into_bytes()))
    }
}
