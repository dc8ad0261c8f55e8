//! Whether a join has kept rows that none finds.
ghost use Rattle.std.specs.Prelude.{◌≡◌};
ghost use Rattle.morsel_join_phases.specs.JoinPhases.{has_alone};

use morsel_join::{JoinRules, JoinType};

/// Whether joins by these rules have kept rows that none finds.
pub fn gives_alone(rules: &JoinRules) -> bool
    ensures { result ≡ has_alone rules.now }
{
    let is_left = rules.keeps_left();
    match rules.how {
        JoinType::Inner => false,
        JoinType::Left => is_left,
        JoinType::Right => !is_left,
        JoinType::Full => true,
    }
}
