//! Laws of the definitions.
ghost use Rattle.bullet_focus.specs.Laws.{BulletsKeepGoals, BracesKeepGoals};

/// Bullets and braces lose no goal and make none, and they keep the order of the goals.
pub fn law_of_goals()
    ensures bullets { BulletsKeepGoals }
    ensures braces { BracesKeepGoals }
{}
