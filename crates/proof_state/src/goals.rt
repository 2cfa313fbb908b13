//! Goals.
ghost use Rattle.std.specs.Prelude.{◌≡◌, IfOk};

use base_core::NoMem;
use cic_rules::Context;
use core_term::Term;

/// The greatest number of goals that a proof ever has.
pub const GOAL_LIMIT: usize = 1 << 31;

/// A type of which a term is looked for, in its context.
#[derive(Drop)]
pub struct Goal {
    pub ctx: Context,
    pub ty: Term,
}

impl Goal {
    /// The same goal once more, in two steps.
    pub fn share(&self) -> Result<Goal, NoMem>
        ensures { IfOk result (λ g. g ≡ self.now) }
    {
        let ctx = self.ctx.share()?;
        let ty = self.ty.share()?;
        Ok(Goal { ctx, ty })
    }
}
