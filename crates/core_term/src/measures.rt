//! Size, depth and the bound on free variables of a node.
ghost use Rattle.std.specs.Prelude.{◌≡◌, ◌+◌, ◌-◌, ◌^◌, ◌<◌, max};

/// A term's count of nodes, its depth, and the least number above each of its free variables.
#[derive(Clone, Copy, Debug)]
pub struct Measure {
    pub size: u32,
    pub depth: u32,
    pub bound: u64,
}

impl Measure {
    /// That of a term with no parts.
    pub(crate) fn leaf(bound: u64) -> Measure
        ensures { result ≡ record { size = 1; depth = 1; bound = bound } }
    {
        Measure {
            size: 1,
            depth: 1,
            bound,
        }
    }

    /// That of two parts side by side.
    pub(crate) fn beside(self, other: Measure) -> Measure
        requires { self.size + other.size < 2 ^ 32 }
        ensures size { result.size ≡ self.size + other.size }
        ensures depth { result.depth ≡ max self.depth other.depth }
        ensures bound { result.bound ≡ max self.bound other.bound }
    {
        Measure {
            size: self.size + other.size,
            depth: self.depth.max(other.depth),
            bound: self.bound.max(other.bound),
        }
    }

    /// That of a node over two parts.
    pub(crate) fn with(self, other: Measure) -> Measure
        requires size { 1 + self.size + other.size < 2 ^ 32 }
        requires depth { 1 + max self.depth other.depth < 2 ^ 32 }
        ensures size { result.size ≡ 1 + self.size + other.size }
        ensures depth { result.depth ≡ 1 + max self.depth other.depth }
        ensures bound { result.bound ≡ max self.bound other.bound }
    {
        let parts = self.beside(other);
        Measure {
            size: parts.size + 1,
            depth: parts.depth + 1,
            bound: parts.bound,
        }
    }

    /// That of a part under a binder, as seen from above it.
    pub(crate) fn under_binder(self) -> Measure
        ensures { result ≡ record self { bound = self.bound - 1 } }
    {
        Measure {
            bound: self.bound.saturating_sub(1),
            ..self
        }
    }
}
