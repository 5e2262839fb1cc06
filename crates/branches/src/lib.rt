// The goals on the way from the query to a node, as the reader holds them. specs/Rules.antt of the crate derivation says what may
// not repeat there; of the reader's code this crate alone knows it.
#![tactic(auto)]

ghost use Rattle.std.specs.Prelude.{◌≡◌, [], ◌∷◌, ◌<◌, length};
ghost use Rattle.table.specs.Limits.{most_depth};
ghost use Rattle.derivation.specs.Rules.{fresh, same_goal};
ghost use Rattle.branches.specs.Held.{above};

use few::Few;
use table::{Goal, Name, Principal, Role};

// As many levels as a query can allow.
const MOST_LEVELS: usize = 16;

// The goals above a node, the query's first.
#[derive(Clone, Copy)]
pub struct Branch {
    pub goals: Few<Goal, MOST_LEVELS>,
}

impl Branch {
    // Nothing stands above the query's goal.
    pub fn empty() -> Branch
        ensures { above result ≡ [] }
    {
        Branch {
            goals: Few::none(Goal {
                principal: Principal(0),
                role: Role {
                    owner: Principal(0),
                    name: Name(0),
                },
            }),
        }
    }

    pub fn with(self, goal: Goal) -> Branch
        requires { length (above self) < most_depth }
        ensures { above result ≡ goal ∷ above self }
    {
        Branch {
            goals: self.goals.with(goal),
        }
    }

    // How many goals stand above.
    pub fn len(&self) -> usize
        ensures { result ≡ length (above self.now) }
    {
        self.goals.len()
    }

    // Whether the goal, as a pair of principal and role, is none of those above it.
    pub fn is_fresh(&self, goal: Goal) -> bool
        ensures { result ≡ fresh (above self.now) goal }
    {
        for other in self.goals.as_slice() {
            if is_same(*other, goal) {
                return false;
            }
        }
        true
    }
}

// The same pair of principal and role. Kinds 2 and 4 ask of the same principal, so names are compared first.
fn is_same(one: Goal, other: Goal) -> bool
    ensures { result ≡ same_goal one other }
{
    one.role.name == other.role.name && one == other
}
