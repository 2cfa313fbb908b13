//! The binders of a `forall` or a `fun` as one list.

ghost use Rattle.std.specs.Prelude.{◌≡◌, ◌<◌, length};
ghost use Rattle.coq_syntax.specs.Nodes.{binders_of};
ghost use Rattle.coq_syntax.specs.BinderRows.{binder_rows, IsRow};

use crate::{Binders, BoundName, Group, SurfaceTerm};

/// The names and the type of a group.
fn group_row(group: &Group) -> (&[BoundName], &SurfaceTerm)
    ensures names { result.0.now ≡ group.now.names.items }
    ensures ty { result.1.now ≡ group.now.ty.value }
{
    (group.names.as_slice(), &group.ty)
}

impl Binders {
    /// How many lists of names with a type there are: the groups, or one where there are no parentheses.
    pub fn rows(&self) -> usize
        ensures { result ≡ length (binder_rows (binders_of self.now)) }
    {
        match self {
            Binders::Names { .. } => 1,
            Binders::Groups(groups) => groups.as_slice().len(),
        }
    }

    /// The names and the type of one of them.
    pub fn row(&self, index: usize) -> (&[BoundName], &SurfaceTerm)
        requires { index < length (binder_rows (binders_of self.now)) }
        ensures { IsRow (binder_rows (binders_of self.now)) index result.0.now result.1.now }
    {
        match self {
            Binders::Names { names, ty, .. } => (names.as_slice(), ty),
            Binders::Groups(groups) => group_row(&groups.as_slice()[index]),
        }
    }
}
