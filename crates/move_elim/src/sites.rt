//! Terms put under more binders. Each variable of such a term means one of the binders above, which is kept by
//! its level: how many binders stand above it.
ghost use Rattle.std.specs.Prelude.{◌≡◌, ◌+◌, ◌^◌, ◌<◌, ◌≤◌, length, IfOk};
ghost use Rattle.core_term.specs.Tree.{Var, IsNumbered, depth_of};
ghost use Rattle.core_term.specs.Answers.{within_limits, Gives};
ghost use Rattle.term_spine.specs.Instantiate.{instantiate_under};
ghost use Rattle.move_elim.specs.Sites.{site_values, levels_of, own_site as the_own_site, with_variable as variable_site, with_binder as binder_site, stand_for as standing_site, placed as placed_term};
ghost use Rattle.move_elim.specs.Scopes.{MayPlace};

use base_core::NoMem;
use core_term::{Node, Term, TermStop};
use shared_map::SharedList;
use std::alloc::Global;

/// Below so many binders, with the level of the binder that each variable of a context means, the newest first.
#[derive(Drop)]
pub struct Site {
    pub levels: SharedList<u32>,
    pub depth: u32,
}

impl Site {
    /// Below a further binder, which a new variable means.
    pub(crate) fn with_variable(&self, alloc: Global) -> Result<Site, NoMem>
        requires { self.now.depth + 1 < 2 ^ 32 }
        ensures { IfOk result (λ s. s ≡ variable_site self.now) }
    {
        let levels = self.levels.with_first(alloc, self.depth)?;
        Ok(Site {
            levels,
            depth: self.depth + 1,
        })
    }

    /// .. which no variable means.
    pub(crate) fn with_binder(&self) -> Result<Site, NoMem>
        requires { self.now.depth + 1 < 2 ^ 32 }
        ensures { IfOk result (λ s. s ≡ binder_site self.now) }
    {
        let levels = self.levels.share()?;
        Ok(Site {
            levels,
            depth: self.depth + 1,
        })
    }

    /// .. which a variable of the context means from here on.
    pub(crate) fn stand_for(&self, alloc: Global, i: u32) -> Result<Site, NoMem>
        requires variable { i < length self.now.levels }
        requires room { self.now.depth + 1 < 2 ^ 32 }
        ensures { IfOk result (λ s. s ≡ standing_site i self.now) }
    {
        let levels = self.levels.with_set(alloc, i as usize, self.depth)?;
        Ok(Site {
            levels,
            depth: self.depth + 1,
        })
    }
}

/// Where a context of so many hypotheses stands itself.
pub(crate) fn own_site(alloc: Global, count: u32) -> Result<Site, NoMem>
    ensures { IfOk result (λ s. s ≡ the_own_site count) }
{
    let levels = own_levels(alloc, count)?;
    Ok(Site {
        levels,
        depth: count,
    })
}

/// The levels of its hypotheses.
#[tactic(auto, using(crate::proofs::SiteLaws::levels_next))]
fn own_levels(alloc: Global, count: u32) -> Result<SharedList<u32>, NoMem>
    ensures { IfOk result (λ levels. levels ≡ levels_of count) }
{
    let mut levels = SharedList::empty();
    for level in 0..count {
        levels = levels.with_first(alloc, level)?;
    }
    Ok(levels)
}

/// A term at a site, which is as large as it was.
#[tactic(auto, using(crate::proofs::SiteLaws::placed_numbered, crate::proofs::SiteLaws::placed_fits))]
pub(crate) fn placed(alloc: Global, t: &Term, site: &Site, globals: u32) -> Result<Term, NoMem>
    requires { MayPlace globals site.now t.now }
    ensures { IfOk result (λ u. u ≡ placed_term site.now t.now) }
{
    let _depth = t.depth();
    match placed_under(alloc, t, site, 0) {
        Ok(t) => Ok(t),
        Err(TermStop::NoMem) => Err(NoMem),
        Err(TermStop::TooLarge) => unreachable!(),
    }
}

/// The same below so many binders of the term itself. A part without variables of the context is
/// shared.
#[tactic(auto, using(term_spine::proofs::Instantiations::limits_above))]
fn placed_under(alloc: Global, t: &Term, site: &Site, binders: u32) -> Result<Term, TermStop>
    requires room { binders + depth_of t.now < 2 ^ 32 }
    requires numbered { IsNumbered (instantiate_under (site_values site.now) t.now binders) }
    ensures { Gives result (within_limits (instantiate_under (site_values site.now) t.now binders)) }
{
    if u64::from(binders) >= t.free_bound() {
        return Ok(t.share()?);
    }
    let node = match t.node() {
        Node::Var(i) => Node::Var(placed_variable(site, *i, binders)),
        Node::Sorted(s) => Node::Sorted(*s),
        Node::Constant(c) => Node::Constant(*c),
        Node::Prod {
            name,
            domain,
            codomain,
        } => Node::Prod {
            name: name.share()?,
            domain: placed_under(alloc, domain, site, binders)?,
            codomain: placed_under(alloc, codomain, site, binders + 1)?,
        },
        Node::Lam { name, domain, body } => Node::Lam {
            name: name.share()?,
            domain: placed_under(alloc, domain, site, binders)?,
            body: placed_under(alloc, body, site, binders + 1)?,
        },
        Node::LetIn {
            name,
            ty,
            value,
            body,
        } => Node::LetIn {
            name: name.share()?,
            ty: placed_under(alloc, ty, site, binders)?,
            value: placed_under(alloc, value, site, binders)?,
            body: placed_under(alloc, body, site, binders + 1)?,
        },
        Node::App { function, argument } => Node::App {
            function: placed_under(alloc, function, site, binders)?,
            argument: placed_under(alloc, argument, site, binders)?,
        },
    };
    Term::of_node(alloc, node)
}

/// The variable that a variable of the term becomes.
#[tactic(auto, using(crate::proofs::SiteLaws::variable_found, crate::proofs::SiteLaws::variable_none))]
fn placed_variable(site: &Site, i: u32, binders: u32) -> u32
    requires within { binders ≤ i }
    requires numbered { IsNumbered (instantiate_under (site_values site.now) (Var i) binders) }
    ensures { Var result ≡ instantiate_under (site_values site.now) (Var i) binders }
{
    match site.levels.get((i - binders) as usize) {
        Some(level) => site.depth.saturating_sub(1).saturating_sub(*level) + binders,
        None => (i as usize).saturating_sub(site.levels.len()) as u32,
    }
}
