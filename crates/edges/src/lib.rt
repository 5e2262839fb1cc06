// One edge of an automaton (docs/DEFINITION.md, "Words"): which roles its label matches, and what it gives from a state set. An
// edge is two masks, of its `from` state and of its `to` state, so a set is moved whole and never asked for a single state.
#![tactic(auto)]

ghost use Rattle.std.specs.Prelude.{◌≡◌, ◌^◌, ◌≤◌};
ghost use Rattle.sets.specs.Logic.{pick};
ghost use Rattle.sets.specs.Sets.{meets};
ghost use Rattle.table.specs.Limits.{last_state};
ghost use Rattle.edges.specs.Edges;

use sets::StateSet;
use table::{Edge, Label, Role};

// Whether the edge's label matches the role.
pub fn matches(edge: Edge, role: Role) -> bool
    ensures { result ≡ Edges.matches edge role }
{
    match Label::try_from(edge.label) {
        Ok(Label::ThisRole) => edge.role == role,
        Ok(Label::EveryRole) => true,
        Ok(Label::OtherRoles) => edge.role != role,
        Ok(Label::RolesOfOwner) => edge.role.owner == role.owner,
        Err(_) => false,
    }
}

// What the edge gives along the role from its automaton's set: the mask of its `to` state, or 0 where it does not lead on. The
// masks are tested first: that is cheaper than the label, and most edges fail there.
pub fn gives(edge: Edge, role: Role, set: StateSet) -> StateSet
    requires { (edge.from ≤ last_state) × (edge.to ≤ last_state) }
    ensures { result ≡ pick (Edges.leads edge.automaton role set edge) (2 ^ edge.to) 0 }
{
    let to = given(set, 1 << edge.from, 1 << edge.to);
    if to == 0 {
        return 0;
    }
    if matches(edge, role) {
        return to;
    }
    0
}

// An edge or an arc by its masks: it gives `to` where the set has a state of `from`, else 0.
pub fn given(set: StateSet, from: StateSet, to: StateSet) -> StateSet
    ensures { result ≡ pick (meets set from) to 0 }
{
    if set & from != 0 {
        return to;
    }
    0
}
