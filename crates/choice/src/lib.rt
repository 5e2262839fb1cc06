// The choice at a node of the first record (docs/DEFINITION.md, "The first record"): the least credential of the set that proves
// the goal such that what is wanted of the owed automata can be met, and with it the least middle. That some credential does is
// known beforehand, so that the last candidate needs no search. specs/Choice.antt says what is chosen.
#![tactic(auto)]

mod middles; // middles.rt: the least middle of a credential of kind 3

ghost use Rattle.std.specs.Prelude.{◌≡◌, true, [], ◌∷◌, suc, ◌<◌, ◌≤◌, get_or};
ghost use Rattle.sets.specs.Logic.{any_below};
ghost use Rattle.few.specs.Listed.{listed};
ghost use Rattle.families.specs.Families.{in_family};
ghost use Rattle.table.specs.Limits.{most_credentials};
ghost use Rattle.table.specs.Layout.{credential, credentials};
ghost use Rattle.table.specs.Holding.{WellFormed};
ghost use Rattle.members.specs.Members.{Placed, asked_cell, link_cell};
ghost use Rattle.search.specs.Asking.{pair};
ghost use Rattle.search.specs.Search.{Stands, goal_at, proves_with};
ghost use Rattle.search.specs.Grounds.{RememberedOn, SearchableOn};
ghost use Rattle.choice.specs.Choice.{Chosen, LastUsable, Made, Wanted, least_credential, suits_on, word_on};

use families::Family;
use few::Few;
use goals::{Ground, Spot};
use search::Pair;
use table::layout::MOST_PARTS;
use table::{Kind, Number, layout};

// A node: its two numbers, and the goals that it asks.
#[derive(Clone, Copy)]
pub struct Node {
    pub credential: Number,
    pub middle: Number,
    pub asked: Few<Pair, MOST_PARTS>,
}

// The node for the principal at `person` in the role at `place`, whom some allowed credential proves to be in it such that a set
// of the family `wanted` is met. The spot is the one below the node.
pub fn choose(
    ground: &Ground,
    wanted: Family,
    person: usize,
    place: usize,
    spot: Spot,
    memory: &mut [u32],
) -> Node
    requires searchable { SearchableOn ground.now spot.levels }
    requires stands { Stands ground.now.table.now person place × (place < credentials ground.now.table.now) }
    requires wanted { Wanted ground.now.terms.owed wanted }
    requires remembered { RememberedOn ground.now memory.old }
    requires table_value { let g = ground.now in any_below (proves_with g.table.now g.terms.allowed
        (suits_on g wanted spot) (word_on g wanted spot) (goal_at g.table.now person place)) (credentials g.table.now) ≡ true }
    ensures { let g = ground.now in Chosen g.table.now g.terms.allowed g.terms.constraints g.terms.owed
        spot.levels spot.above spot.states (in_family wanted) (goal_at g.table.now person place) result
        × RememberedOn g memory.new }
{
    let i = least_credential(ground, wanted, person, place, spot, memory);
    if !layout::credential(ground.table, i + 1).is(Kind::LinkingContainment) {
        return made(
            i,
            0,
            search::roles_asked(ground.table, ground.index, person, i),
        );
    }
    let j = middles::least_middle(ground, wanted, person, i, spot, memory);
    linked(ground, person, i, j)
}

// The least allowed credential that proves the goal, as i where its number is i + 1. All but the last that may be used are
// tried; where they fail it is the last.
fn least_credential(
    ground: &Ground,
    wanted: Family,
    person: usize,
    place: usize,
    spot: Spot,
    memory: &mut [u32],
) -> usize
    requires searchable { SearchableOn ground.now spot.levels }
    requires stands { Stands ground.now.table.now person place × (place < credentials ground.now.table.now) }
    requires wanted { Wanted ground.now.terms.owed wanted }
    requires remembered { RememberedOn ground.now memory.old }
    requires table_value { let g = ground.now in any_below (proves_with g.table.now g.terms.allowed
        (suits_on g wanted spot) (word_on g wanted spot) (goal_at g.table.now person place)) (credentials g.table.now) ≡ true }
    ensures { let g = ground.now in ((result < credentials g.table.now)
        × (suc result ≡ least_credential g.table.now g.terms.allowed
        (suits_on g wanted spot) (word_on g wanted spot) (goal_at g.table.now person place)))
        × RememberedOn g memory.new }
{
    let last = last_usable(ground, place, layout::credentials(ground.table));
    for i in 0..last {
        if goals::may_use(ground, place, i) {
            let answer = search::credential_search(ground, person, i, spot, memory);
            if answer.found.meets(wanted) {
                return i;
            }
        }
    }
    last
}

// The last of the first n credentials that may be used for the role at `place`.
fn last_usable(ground: &Ground, place: usize, n: usize) -> usize
    requires placed { Placed ground.now.index.now }
    requires n_nonzero { (0 < n) × (n ≤ most_credentials) }
    ensures { LastUsable ground.now.index.now ground.now.terms.allowed place n result }
{
    for i in (0..n).rev() {
        if goals::may_use(ground, place, i) {
            return i;
        }
    }
    0
}

// The node of credential i + 1, of kind 3, with the principal at j as its middle: the middle in the first role, then the
// principal in the middle's second.
fn linked(ground: &Ground, person: usize, i: usize, j: usize) -> Node
    requires well_formed { WellFormed ground.now.table.now }
    requires placed { Placed ground.now.index.now }
    requires i_bound { (i < credentials ground.now.table.now) × (j < credentials ground.now.table.now) }
    ensures { let g = ground.now in Made (suc i) (credential g.table.now (suc j)).first
        (pair j (get_or g.index.now (asked_cell i 0) 0)
        ∷ pair person (get_or g.index.now (link_cell i j) 0) ∷ []) result }
{
    let middle = layout::credential(ground.table, j + 1);
    let first = members::asked_cell(ground.index, i, 0);
    let second = members::link_cell(ground.index, i, j);
    made(
        i,
        middle.first,
        search::link_asked(j, first, person, second),
    )
}

// The node of credential i + 1 with its middle, and what it asks.
fn made(i: usize, middle: Number, asked: Few<Pair, MOST_PARTS>) -> Node
    requires { i < most_credentials }
    ensures { Made (suc i) middle (listed asked) result }
{
    Node {
        credential: (i + 1) as Number,
        middle,
        asked,
    }
}
