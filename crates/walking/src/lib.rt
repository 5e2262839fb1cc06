// The first record, node by node in preorder: a node's two numbers go into the cells, where there are any left, and then what
// the node asks is walked in order. A walk stops as soon as it has more numbers than there is room for. On the way it is known
// which sets of the owed automata a goal may meet: what it meets has to leave to the goals behind it what they can meet.
// specs/First.antt says which record it is, specs/Walked.antt what is left in the cells.
#![tactic(auto)]

ghost use Rattle.std.specs.Prelude.{◌≡◌, true, [], ◌∷◌, ◌+◌, ◌^◌, ◌<◌, ◌≤◌, eqb};
ghost use Rattle.std.specs.Int.Bits.{bit_or};
ghost use Rattle.sets.specs.Sets.{part};
ghost use Rattle.families.specs.Families.{FamilyOf, in_family};
ghost use Rattle.table.specs.Layout.{credentials};
ghost use Rattle.automata.specs.Together.{starting_sets};
ghost use Rattle.derivation.specs.Rules.{goal_of};
ghost use Rattle.derivation.specs.Forest.{written};
ghost use Rattle.members.specs.Above.{nothing_above};
ghost use Rattle.members.specs.Members.{Members};
ghost use Rattle.search.specs.Search.{Stands, goal_at, provable, proves};
ghost use Rattle.search.specs.Failing.{FoundBelow, Remembered};
ghost use Rattle.search.specs.Grounds.{RememberedOn, SearchableOn};
ghost use Rattle.choice.specs.Choice.{Wanted, suits_on};
ghost use Rattle.walking.specs.First.{first_forest, leaves};
ghost use Rattle.walking.specs.Walked.{ChildrenOn, Walked, WalksOn, goals_at, later_test};

use automata::StateSets;
use families::Family;
use goals::{Ground, Spot, Terms};
use members::Above;
use search::{Pair, Request};
use sets::{AutomatonSet, CredentialSet};
use table::{Number, layout};

// What a walk tells: the cell behind the record, and which of the owed automata the words of the record meet.
#[derive(Clone, Copy)]
struct Reached {
    pub next: usize,
    pub met: AutomatonSet,
}

// Walks the whole record, from the query's goal on, which has to meet all that is owed.
pub fn from_goal(
    request: &Request,
    rows: &[CredentialSet],
    terms: Terms,
    memory: &mut [u32],
    most: usize,
    rec: &mut [Number],
) -> usize
    requires members { Members request.now.table.now terms.allowed request.now.query.depth terms.last rows.now }
    requires remembered { Remembered request.now.table.now terms.allowed terms.constraints terms.owed memory.old }
    requires owed_value { provable request.now.table.now request.now.query terms.allowed terms.constraints terms.owed ≡ true }
    requires most_bound { most < 2 ^ 63 }
    ensures { Walked 0 most (written (first_forest request.now.table.now terms.allowed terms.constraints terms.owed
        request.now.query.depth nothing_above (starting_sets request.now.table.now) (eqb terms.owed) (goal_of request.now.query ∷ [])))
        rec.old rec.new result
        × Remembered request.now.table.now terms.allowed terms.constraints terms.owed memory.new }
{
    let ground = Ground {
        table: request.table,
        index: request.index,
        arcs: request.arcs,
        rows,
        terms,
    };
    let start = Spot {
        levels: layout::wide(request.query.depth),
        states: StateSets::start(request.table),
        above: Above::nothing(),
    };
    let walked = walk(
        &ground,
        Family::only(terms.owed),
        members::goal_person(request.index),
        members::goal_role(request.index),
        start,
        memory,
        most,
        0,
        rec,
    );
    walked.next
}

// Walks the record of the principal at `person` in the role at `place`, such that it meets a set of the family `wanted`. It
// goes into the cells from `at` on. Where the cell behind it lies beyond `most`, the walk may have stopped before.
#[cycle(walk_on)]
fn walk(
    ground: &Ground,
    wanted: Family,
    person: usize,
    place: usize,
    spot: Spot,
    memory: &mut [u32],
    most: usize,
    at: usize,
    rec: &mut [Number],
) -> Reached
    requires searchable { SearchableOn ground.now spot.levels }
    requires stands { Stands ground.now.table.now person place × (place < credentials ground.now.table.now) }
    requires wanted { Wanted ground.now.terms.owed wanted }
    requires remembered { RememberedOn ground.now memory.old }
    requires place_value { suits_on ground.now wanted spot (goal_at ground.now.table.now person place ∷ []) ≡ true }
    requires at_le_most { (at ≤ most) × (most < 2 ^ 63) }
    ensures { WalksOn ground.now wanted spot (goal_at ground.now.table.now person place ∷ []) at most rec.old rec.new result
        × RememberedOn ground.now memory.new }
{
    let moved = goals::stepped(ground, place, spot.states);
    let below = Spot {
        levels: spot.levels - 1,
        states: moved.states,
        above: spot.above.with(person, place),
    };
    let node = choice::choose(ground, wanted, person, place, below, memory);
    put(node.credential, node.middle, at, rec);
    let next = at + 2;
    if node.asked.len() == 0 {
        let accepting = moves::accepting(below.states, ground.table, ground.arcs);
        return Reached {
            next,
            met: ground.terms.owed & accepting,
        };
    }
    if most < next {
        return Reached { next, met: 0 };
    }
    let asked = node.asked.as_slice();
    walk_asked(ground, wanted, asked, below, memory, most, next, rec)
}

// Walks the records of the goals that are asked, in order. Each goal may meet what leaves to those behind it what they can meet
// of what those before it have not met.
#[cycle(walk_on)]
fn walk_asked(
    ground: &Ground,
    wanted: Family,
    asked: &[Pair],
    spot: Spot,
    memory: &mut [u32],
    most: usize,
    from: usize,
    rec: &mut [Number],
) -> Reached
    requires searchable { SearchableOn ground.now spot.levels }
    requires children { ChildrenOn ground.now spot asked.now }
    requires wanted { Wanted ground.now.terms.owed wanted }
    requires remembered { RememberedOn ground.now memory.old }
    requires asked_value { suits_on ground.now wanted spot (goals_at ground.now.table.now asked.now) ≡ true }
    requires from_le_most { (from ≤ most) × (most < 2 ^ 63) }
    ensures { WalksOn ground.now wanted spot (goals_at ground.now.table.now asked.now) from most rec.old rec.new result
        × RememberedOn ground.now memory.new }
{
    let mut next = from;
    let mut met = 0;
    for (k, goal) in asked.iter().enumerate() {
        let here = wanted_here(ground, wanted, met, &asked[k + 1..], spot, memory);
        let walked = walk(
            ground,
            here,
            goal.person,
            goal.place,
            spot,
            memory,
            most,
            next,
            rec,
        );
        next = walked.next;
        if most < next {
            break;
        }
        met |= walked.met;
    }
    Reached { next, met }
}

// What a goal may meet before the later ones, where those before it have met `met`. Where nothing is owed there is nothing to share
// out; where what has been met is wanted already, what the goals behind it can meet need not be known.
fn wanted_here(
    ground: &Ground,
    wanted: Family,
    met: AutomatonSet,
    later: &[Pair],
    spot: Spot,
    memory: &mut [u32],
) -> Family
    requires searchable { SearchableOn ground.now spot.levels }
    requires children { ChildrenOn ground.now spot later.now }
    requires wanted { Wanted ground.now.terms.owed wanted }
    requires remembered { RememberedOn ground.now memory.old }
    requires met_owed { part met ground.now.terms.owed ≡ true }
    ensures { let g = ground.now in FamilyOf (leaves
        (proves g.table.now g.terms.allowed g.terms.constraints g.terms.owed spot.levels spot.above spot.states) g.terms.owed
        (λ X. in_family wanted (bit_or met X)) (goals_at g.table.now later.now)) result
        × RememberedOn g memory.new }
{
    let owed = ground.terms.owed;
    if owed == 0 {
        return wanted;
    }
    let now = Family::only(met);
    if wanted.has(met) {
        return wanted.left_by(now, owed);
    }
    let rest = met_from(ground, later, spot, memory);
    wanted.left_by(now.joined(rest), owed)
}

// What these goals can meet together, the last of them first.
fn met_from(ground: &Ground, later: &[Pair], spot: Spot, memory: &mut [u32]) -> Family
    requires searchable { SearchableOn ground.now spot.levels }
    requires children { ChildrenOn ground.now spot later.now }
    requires remembered { RememberedOn ground.now memory.old }
    ensures { let g = ground.now in FoundBelow g.terms.owed (later_test g.table.now g.terms.allowed g.terms.constraints g.terms.owed
        spot.levels spot.states (goals_at g.table.now later.now)) spot.above result
        × RememberedOn g memory.new }
{
    let mut met = Family::only(0);
    for k in (0..later.len()).rev() {
        let answer = search::goal_search(ground, later[k].person, later[k].place, spot, memory);
        met = answer.found.joined(met);
    }
    met
}

// A node's two numbers, where there are cells for both.
fn put(credential: Number, middle: Number, at: usize, rec: &mut [Number])
    requires { at < 2 ^ 63 }
    ensures { Walked at (at + 2) (credential ∷ middle ∷ []) rec.old rec.new (at + 2) }
{
    if at + 2 <= rec.len() {
        rec[at] = credential;
        rec[at + 1] = middle;
    }
}
