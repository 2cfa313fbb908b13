//! Goals, as they are shown.
use base_core::{List, Text};

/// A hypothesis, as it is shown.
#[derive(Debug, Drop)]
pub struct HypView {
    pub name: Text,
    pub ty: Text,
    /// Its value, where it has a definition.
    pub value: Option<Text>,
}

/// Hypotheses, the oldest first.
pub type HypViewList = List<HypView>;

/// A goal, as it is shown.
#[derive(Debug, Drop)]
pub struct GoalView {
    pub hyps: HypViewList,
    pub ty: Text,
}

/// Goals in order.
pub type ViewList = List<GoalView>;

/// The goals that wait at each level of focus, the innermost first.
pub type LevelList = List<ViewList>;

/// The goals of a proof under way.
#[derive(Debug, Drop)]
pub struct GoalsView {
    /// The focused goals.
    pub goals: ViewList,
    pub stack: LevelList,
    /// The goals that were given up, in the order in which they were.
    pub given_up: ViewList,
}
