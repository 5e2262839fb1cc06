// The search itself: `goal_search` tries the credentials that define the goal's role, `credential_search` the goals that a credential
// asks, and the two call each other with fewer levels left. Both find which sets of the owed automata can be met. Where nothing is
// owed that is the empty set, or no set at all. What could not be met is remembered with the pairs of the branch that stood in the
// way, the blocking pairs, so that it is not sought again while these are on the branch (crate failures).
ghost use Rattle.std.specs.Prelude.{◌≡◌, false, [], ◌∷◌, ◌⊎◌, suc, ◌<◌, ◌≤◌, get_or, length, eqb};
ghost use Rattle.std.specs.Int.Bits.{bit_or};
ghost use Rattle.families.specs.Families.{FamilyOf, all_sets};
ghost use Rattle.table.specs.Limits.{most_parts};
ghost use Rattle.table.specs.Layout.{credential, credentials};
ghost use Rattle.members.specs.Above.{nothing_above};
ghost use Rattle.failures.specs.Failures.{SlotIn};
ghost use Rattle.goals.specs.Goals.{stepped};
ghost use Rattle.search.specs.Asking.{pair};
ghost use Rattle.search.specs.Search.{AllStand, Stands, Tried};
ghost use Rattle.search.specs.Failing.{Recalls, Sought, any_test};
ghost use Rattle.search.specs.Grounds.{JudgedOn, LaterJudgedOn, RememberedOn, SearchableOn, goal_on, own_on, pair_on, shared_on};

use crate::asking;
use crate::asking::Pair;
use families::Family;
use goals::{Ground, Spot};
use members::Above;
use sets::AutomatonSet;
use table::layout::MOST_PARTS;
use table::{Kind, layout};

// What is found of a goal or of a credential: sets that can be met where it is proved, and the pairs of the branch that stood in the
// way of all other sets.
#[derive(Clone, Copy)]
pub struct Answer {
    pub found: Family,
    pub blocking: Above,
}

// What is known of a goal before it is sought: while the blocking pairs are on the branch it can meet no more than `wanted`.
#[derive(Clone, Copy)]
struct Known {
    wanted: Family,
    blocking: Above,
}

// What can be met by proving, within the levels of the spot, that the principal at `person` is in the role at `place`. The goal fails
// if the table of members does not have it, if it is already on the branch, or if it is known to fail here. The search ends once it has
// found all that the goal can still meet; if it finds less, it remembers that.
#[cycle(seek)]
pub fn goal_search(
    ground: &Ground,
    person: usize,
    place: usize,
    spot: Spot,
    memory: &mut [u32],
) -> Answer
    requires searchable { SearchableOn ground.now spot.levels }
    requires stands { Stands ground.now.table.now person place }
    requires remembered { RememberedOn ground.now memory.old }
    ensures { JudgedOn ground.now spot (goal_on ground.now spot person place) result × RememberedOn ground.now memory.new }
{
    if !goals::may_be_proved(ground, person, place, spot.levels) {
        return failed(Above::nothing());
    }
    if spot.above.has(person, place) {
        return failed(Above::nothing().with(person, place));
    }
    let slot = failures::slot(person, place, spot.states, failures::slot_count(memory));
    let known = recalled(memory, slot, ground.terms.owed, person, place, spot);
    if known.wanted.is_none() {
        return failed(known.blocking);
    }
    let below = Spot {
        levels: spot.levels - 1,
        above: spot.above.with(person, place),
        ..spot
    };
    let answer = definers_search(ground, known.wanted, person, place, below, memory);
    let found = answer.found;
    if known.wanted.is_part(found) {
        return Answer {
            found,
            blocking: known.blocking,
        };
    }
    let blocking = failures::without(answer.blocking, person, place);
    failures::keep(
        memory,
        slot,
        person,
        place,
        spot.levels,
        spot.states,
        blocking,
        found,
    );
    Answer { found, blocking }
}

// What can be met by the allowed credentials that define the goal's role. The goal is on the branch now, and the spot has the levels
// that are left for what a credential asks. Where an imposed automaton is dead no word is accepted, so the branch is left; an owed one
// that is dead can be met no more, so the search does not wait for it. No more credentials are tried once all that is wanted is found.
#[cycle(seek)]
fn definers_search(
    ground: &Ground,
    wanted: Family,
    person: usize,
    place: usize,
    spot: Spot,
    memory: &mut [u32],
) -> Answer
    requires searchable { SearchableOn ground.now spot.levels }
    requires stands { Stands ground.now.table.now person place × (place < credentials ground.now.table.now) }
    requires remembered { RememberedOn ground.now memory.old }
    ensures { let g = ground.now in Sought g.terms.owed (any_test g.table.now g.terms.allowed g.terms.constraints g.terms.owed spot.levels
        (stepped g.table.now (bit_or g.terms.constraints g.terms.owed)
        (credential g.table.now (suc place)).role spot.states) person place) spot.above wanted result.found result.blocking
        × RememberedOn g memory.new }
{
    let moved = goals::stepped(ground, place, spot.states);
    if goals::any_dead(ground.terms.constraints, moved.dead) {
        return failed(Above::nothing());
    }
    let most = goals::left_owed(ground.terms.owed, moved.dead);
    let below = Spot {
        states: moved.states,
        ..spot
    };
    let mut found = Family::none();
    let mut blocking = Above::nothing();
    for i in 0..layout::credentials(ground.table) {
        if goals::may_use(ground, place, i) {
            let answer = credential_search(ground, person, i, below, memory);
            found = found.or(answer.found);
            if goals::is_enough(found, most, wanted) {
                return Answer {
                    found,
                    blocking: Above::nothing(),
                };
            }
            blocking = failures::joined(blocking, answer.blocking);
        }
    }
    Answer { found, blocking }
}

// What can be met where credential i + 1 proves the goal, with some middle; the spot has the levels that are left for what it asks.
#[cycle(seek)]
pub fn credential_search(
    ground: &Ground,
    person: usize,
    i: usize,
    spot: Spot,
    memory: &mut [u32],
) -> Answer
    requires searchable { SearchableOn ground.now spot.levels }
    requires tried { Tried ground.now.table.now person i }
    requires remembered { RememberedOn ground.now memory.old }
    ensures { JudgedOn ground.now spot (own_on ground.now spot person i) result × RememberedOn ground.now memory.new }
{
    let credential = layout::credential(ground.table, i + 1);
    match Kind::try_from(credential.kind) {
        Ok(Kind::SimpleMembership) => Answer {
            found: goals::ends_word(ground, person, i, spot.states),
            blocking: Above::nothing(),
        },
        Ok(Kind::SimpleContainment | Kind::IntersectionContainment) => {
            parts_search(ground, person, i, spot, memory)
        }
        Ok(Kind::LinkingContainment) => linked_search(ground, person, i, spot, memory),
        Err(_) => failed(Above::nothing()),
    }
}

// Credential i + 1, of kind 2 or 4, proves the goal: the principal is in each of the roles that it asks.
#[cycle(seek)]
fn parts_search(ground: &Ground, person: usize, i: usize, spot: Spot, memory: &mut [u32]) -> Answer
    requires searchable { SearchableOn ground.now spot.levels }
    requires tried { Tried ground.now.table.now person i }
    requires fact { ((credential ground.now.table.now (suc i)).kind ≡ 2) ⊎ ((credential ground.now.table.now (suc i)).kind ≡ 4) }
    requires remembered { RememberedOn ground.now memory.old }
    ensures { JudgedOn ground.now spot (own_on ground.now spot person i) result × RememberedOn ground.now memory.new }
{
    if !goals::are_listed(ground, person, i, spot.levels) {
        return failed(Above::nothing());
    }
    if 0 < ground.terms.owed {
        let asked = asking::roles_asked(ground.table, ground.index, person, i);
        return shared_search(ground, asked.as_slice(), spot, memory);
    }
    for k in 0..MOST_PARTS {
        if !goals::is_asked_before(ground.index, i, k) {
            let place = members::asked_cell(ground.index, i, k);
            let answer = goal_search(ground, person, place, spot, memory);
            if answer.found.is_none() {
                return failed(answer.blocking);
            }
        }
    }
    proved()
}

// Credential i + 1, of kind 3, proves the goal: some middle is in its first role, and the principal in the middle's second.
#[cycle(seek)]
fn linked_search(ground: &Ground, person: usize, i: usize, spot: Spot, memory: &mut [u32]) -> Answer
    requires searchable { SearchableOn ground.now spot.levels }
    requires tried { Tried ground.now.table.now person i }
    requires i_value { (credential ground.now.table.now (suc i)).kind ≡ 3 }
    requires remembered { RememberedOn ground.now memory.old }
    ensures { JudgedOn ground.now spot (own_on ground.now spot person i) result × RememberedOn ground.now memory.new }
{
    let row = goals::row_of(spot.levels, ground.terms.last);
    let first = members::asked_cell(ground.index, i, 0);
    let mut found = Family::none();
    let mut blocking = Above::nothing();
    for j in 0..layout::credentials(ground.table) {
        let second = members::link_cell(ground.index, i, j);
        if goals::is_middle(ground, row, person, j, first, second) {
            let link = link_search(ground, person, j, first, second, spot, memory);
            found = found.or(link.found);
            if found.has(ground.terms.owed) {
                return Answer {
                    found,
                    blocking: Above::nothing(),
                };
            }
            blocking = failures::joined(blocking, link.blocking);
        }
    }
    Answer { found, blocking }
}

// The principal at `middle` is in the role at `first`, and the one at `person` in the role at `second`.
#[cycle(seek)]
fn link_search(
    ground: &Ground,
    person: usize,
    middle: usize,
    first: usize,
    second: usize,
    spot: Spot,
    memory: &mut [u32],
) -> Answer
    requires searchable { SearchableOn ground.now spot.levels }
    requires stands { Stands ground.now.table.now middle first × Stands ground.now.table.now person second }
    requires remembered { RememberedOn ground.now memory.old }
    ensures { JudgedOn ground.now spot (shared_on ground.now spot (pair middle first ∷ pair person second ∷ [])) result
        × RememberedOn ground.now memory.new }
{
    if ground.terms.owed != 0 {
        let asked = asking::link_asked(middle, first, person, second);
        return shared_search(ground, asked.as_slice(), spot, memory);
    }
    let answer = goal_search(ground, middle, first, spot, memory);
    if answer.found.is_none() {
        return failed(answer.blocking);
    }
    goal_search(ground, person, second, spot, memory)
}

// All goals that are asked, which share out what is owed: two of them may meet two different automata, also where they are the same
// goal twice. The same goal is sought once.
#[cycle(seek)]
fn shared_search(ground: &Ground, asked: &[Pair], spot: Spot, memory: &mut [u32]) -> Answer
    requires searchable { SearchableOn ground.now spot.levels }
    requires stand { (length asked.now ≤ most_parts) × AllStand ground.now.table.now asked.now }
    requires remembered { RememberedOn ground.now memory.old }
    ensures { JudgedOn ground.now spot (shared_on ground.now spot asked.now) result × RememberedOn ground.now memory.new }
{
    let mut each = [Family::none(); MOST_PARTS];
    let mut found = Family::only(0);
    let mut blocking = Above::nothing();
    for k in (0..asked.len()).rev() {
        let answer = asked_search(ground, asked, k, &each, blocking, spot, memory);
        if answer.found.is_none() {
            return failed(answer.blocking);
        }
        each[k] = answer.found;
        blocking = failures::joined(answer.blocking, blocking);
        found = goals::trimmed(answer.found.joined(found), ground.terms.owed);
    }
    Answer { found, blocking }
}

// Goal k of those that are asked, where `each` has what the later ones can meet: it is sought unless one of them is the same.
#[cycle(seek)]
fn asked_search(
    ground: &Ground,
    asked: &[Pair],
    k: usize,
    each: &[Family; MOST_PARTS],
    blocking: Above,
    spot: Spot,
    memory: &mut [u32],
) -> Answer
    requires searchable { SearchableOn ground.now spot.levels }
    requires stand { (length asked.now ≤ most_parts) × AllStand ground.now.table.now asked.now }
    requires later_judged { (k < length asked.now) × LaterJudgedOn ground.now spot asked.now (suc k) each.now blocking }
    requires remembered { RememberedOn ground.now memory.old }
    ensures { JudgedOn ground.now spot (pair_on ground.now spot (get_or asked.now k (pair 0 0))) result
        × RememberedOn ground.now memory.new }
{
    match asking::same_later(asked, k) {
        Some(later) => Answer {
            found: each[later],
            blocking,
        },
        None => goal_search(ground, asked[k].person, asked[k].place, spot, memory),
    }
}

// What is known of the goal: no more can be met than the slot has, if it is about this goal, and otherwise than all that is owed.
fn recalled(
    memory: &[u32],
    slot: usize,
    owed: AutomatonSet,
    person: usize,
    place: usize,
    spot: Spot,
) -> Known
    requires { SlotIn memory.now slot × (owed < all_sets) }
    ensures { Recalls owed memory.now person place spot.levels spot.states spot.above result.wanted result.blocking }
{
    if failures::recalls(
        memory,
        slot,
        person,
        place,
        spot.levels,
        spot.states,
        spot.above,
    ) {
        return Known {
            wanted: failures::family_at(memory, slot),
            blocking: failures::blocking_at(memory, slot),
        };
    }
    Known {
        wanted: Family::only(owed),
        blocking: Above::nothing(),
    }
}

// Nothing is owed, so there is nothing to be met.
fn proved() -> Answer
    ensures { FamilyOf (eqb 0) result.found × (result.blocking ≡ nothing_above) }
{
    Answer {
        found: Family::only(0),
        blocking: Above::nothing(),
    }
}

fn failed(blocking: Above) -> Answer
    ensures { FamilyOf (λ X. false) result.found × (result.blocking ≡ blocking) }
{
    Answer {
        found: Family::none(),
        blocking,
    }
}
