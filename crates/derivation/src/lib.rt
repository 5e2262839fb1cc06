// Derivations of memberships by the rules of RT0 (docs/DEFINITION.md, "Derivations"): which goals a credential asks, and what may
// not repeat on a branch. The verifier's end and the holder's end both go by these. specs/Rules.antt, Forest.antt and Words.antt
// say what a derivation is, specs/Accepted.antt when a record is accepted.
#![tactic(auto)]

pub mod rules; // rules.rt: which goals a credential asks

ghost use Rattle.std.specs.Prelude.{◌≡◌};
ghost use Rattle.derivation.specs.Rules.{goal_of};

use few::Few;
use table::{Goal, Query, Role, layout};

// The goals that a credential asks, in order.
pub type Premises = Few<Goal, { layout::MOST_PARTS }>;

// The queried membership.
pub fn goal_of(query: Query) -> Goal
    ensures { result ≡ goal_of query }
{
    Goal {
        principal: query.principal,
        role: Role {
            owner: query.owner,
            name: query.name,
        },
    }
}
