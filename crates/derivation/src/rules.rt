// Which goals a credential asks for a goal: the four inference rules, by kind.
ghost use Rattle.std.specs.Prelude.{◌≡◌};
ghost use Rattle.table.specs.Holding.{WellFormed};
ghost use Rattle.few.specs.Listed.{listed};
ghost use Rattle.derivation.specs.Rules;
ghost use Rattle.derivation.specs.Rules.{containment_asks, intersection_asks, linking_asks, membership_asks};
ghost use Rattle.derivation.specs.Held.{given};

use crate::Premises;
use few::Few;
use table::{Chain, Credential, Goal, Kind, Name, Number, Principal, Role, layout};

// What the credential asks with this middle, or none where it does not apply.
pub fn premises(table: &[Number], goal: Goal, c: Number, middle: Number) -> Option<Premises>
    requires { WellFormed table.now }
    ensures { given result ≡ Rules.premises table.now goal c middle }
{
    if !usable(table, c) {
        return None;
    }
    let credential = layout::credential(table, layout::wide(c));
    if credential.role != goal.role {
        return None;
    }
    match Kind::try_from(credential.kind) {
        Ok(Kind::SimpleMembership) => membership(credential, goal, middle),
        Ok(Kind::SimpleContainment) => containment(credential, goal, middle),
        Ok(Kind::LinkingContainment) => linking(credential, goal, middle),
        Ok(Kind::IntersectionContainment) => intersection(
            layout::chain(table, credential.first),
            goal,
            middle,
        ),
        Err(_) => None,
    }
}

// Whether a derivation may use credential number c: any that the table has.
pub fn usable(table: &[Number], c: Number) -> bool
    requires { WellFormed table.now }
    ensures { result ≡ Rules.usable table.now c }
{
    c != 0 && layout::wide(c) <= layout::credentials(table)
}

// Kind 1: the goal's principal itself is the member, and nothing is left to ask.
fn membership(c: Credential, goal: Goal, middle: Number) -> Option<Premises>
    ensures { given result ≡ membership_asks goal c middle }
{
    if c.first != goal.principal.0 || middle != 0 {
        return None;
    }
    Some(Few::none(goal))
}

// Kind 2: the same principal in the role that the credential names.
fn containment(c: Credential, goal: Goal, middle: Number) -> Option<Premises>
    ensures { given result ≡ containment_asks goal c middle }
{
    if middle != 0 {
        return None;
    }
    Some(Few::of(Goal {
        principal: goal.principal,
        role: Role {
            owner: Principal(c.first),
            name: Name(c.second),
        },
    }))
}

// Kind 3: the middle in the owner's first role, then the goal's principal in the middle's second.
fn linking(c: Credential, goal: Goal, middle: Number) -> Option<Premises>
    ensures { given result ≡ linking_asks goal c middle }
{
    if middle == 0 || layout::MOST_PRINCIPALS < middle {
        return None;
    }
    let member = Goal {
        principal: Principal(middle),
        role: Role {
            owner: c.role.owner,
            name: Name(c.first),
        },
    };
    let linked = Goal {
        principal: goal.principal,
        role: Role {
            owner: Principal(middle),
            name: Name(c.second),
        },
    };
    Some(Few::of(member).with(linked))
}

// Kind 4: the goal's principal in every part's role, in chain order.
fn intersection(chain: Chain, goal: Goal, middle: Number) -> Option<Premises>
    ensures { given result ≡ intersection_asks goal (listed chain) middle }
{
    if middle != 0 {
        return None;
    }
    let mut goals = Few::none(goal);
    for role in chain.as_slice() {
        goals.push(Goal {
            principal: goal.principal,
            role: *role,
        });
    }
    Some(goals)
}
