//! Who is shown what came of each file.
ghost use Rattle.std.specs.Prelude.{◌≡◌, ℕ, List, [], ◌∷◌, ◌++◌, IfOk, OnOk, OnErr};
ghost use Rattle.batch_check.specs.declared.digests.FileDigest.{FileDigest as Digest};

use crate::digests::FileDigest;
use base_core::{Bytes, NoMem};
use std::alloc::Global;

/// Is shown the digest of each reported file, in order, and tells a summary.
pub trait Observer: Drop {
    /// What it was shown, oldest first.
    ghost shown: { Self → List Digest };

    /// The bytes that `summary` answers as it stands.
    ghost told: { Self → List ℕ };

    /// Its name, which no call changes.
    ghost title: { Self → List ℕ };

    fn name(&self) -> &str
        ensures { result.now ≡ title self.now };

    /// Takes note of a file.
    fn finished(&mut self, alloc: Global, digest: &FileDigest) -> Result<(), NoMem>
        ensures shows { OnOk result (shown self.new ≡ shown self.old ++ digest.now ∷ []) }
        ensures fails { OnErr result ((shown self.new ≡ shown self.old) × (told self.new ≡ told self.old)) }
        ensures named { title self.new ≡ title self.old };

    /// What it says of all that it was shown.
    fn summary(&self, alloc: Global) -> Result<Bytes, NoMem>
        ensures { IfOk result (λ bytes. bytes ≡ told self.now) };
}

impl Observer for Box<dyn Observer> {
    ghost shown = { λ o. (Observer-box o).shown o.value };

    ghost told = { λ o. (Observer-box o).told o.value };

    ghost title = { λ o. (Observer-box o).title o.value };

    fn name(&self) -> &str {
        (**self).name()
    }

    fn finished(&mut self, alloc: Global, digest: &FileDigest) -> Result<(), NoMem> {
        (**self).finished(alloc, digest)
    }

    fn summary(&self, alloc: Global) -> Result<Bytes, NoMem> {
        (**self).summary(alloc)
    }
}
