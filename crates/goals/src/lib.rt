// The tests of which the search is made. Each is told by the table, its indexes and the rows of members alone: nothing is sought.
// Goals are asked by the places of principal and role (crate members). specs/Goals.antt says what the answers mean.
#![tactic(auto)]

ghost use Rattle.std.specs.Prelude.{◌≡◌, suc, ◌<◌, ◌≤◌, get_or, length, eqb};
ghost use Rattle.std.specs.Int.Bits.{bit_and, bit_or};
ghost use Rattle.sets.specs.Logic.{◌and◌, ◌or◌};
ghost use Rattle.families.specs.Families.{FamilyOf, all_sets, in_family, is_part};
ghost use Rattle.table.specs.Layout.{credential, credentials};
ghost use Rattle.table.specs.Holding.{WellFormed};
ghost use Rattle.sets.specs.Sets.{in_set, meets, part};
ghost use Rattle.moves.specs.Arcs.{Arcs};
ghost use Rattle.automata.specs.Together.{accepting_set};
ghost use Rattle.members.specs.Places.{is_person};
ghost use Rattle.members.specs.Members.{Indexed, Placed, asked_cell, lesser, row_cell, table_cells};
ghost use Rattle.masks.specs.Masks.{asked_members};
ghost use Rattle.goals.specs.Goals;
ghost use Rattle.goals.specs.Goals.{Left, Trimmed, asked_before, may_be_proved, usable};

use automata::{Moved, StateSets};
use families::Family;
use masks::ROW;
use members::Above;
use sets::{AutomatonSet, CredentialSet, StateSet};
use table::{Number, layout};

// What a search does not change on its way: the credentials that may be used, credential i counting 2^(i-1); the automata that must
// accept every word, and those that are owed, each of which must accept some word, automaton k counting 2^(k-1); and the last row of
// the table of members.
#[derive(Clone, Copy)]
pub struct Terms {
    pub allowed: CredentialSet,
    pub constraints: AutomatonSet,
    pub owed: AutomatonSet,
    pub last: usize,
}

// What a search reads and does not change: the table with its index (crate indexing), an index of the table's edges (crate moves),
// the table of members of the allowed credentials (crate levels), and the terms.
#[derive(Clone, Copy)]
pub struct Ground<'a> {
    pub table: &'a [Number],
    pub index: &'a [u8],
    pub arcs: &'a [StateSet],
    pub rows: &'a [CredentialSet],
    pub terms: Terms,
}

// Where a search stands on a branch: the levels that are left below it, the state sets to which the automata have come on its words,
// and the pairs of principal and role that stand above.
#[derive(Clone, Copy)]
pub struct Spot {
    pub levels: usize,
    pub states: StateSets,
    pub above: Above,
}

// What credential i + 1, of kind 1, meets: where it names the principal, and each of the imposed automata accepts the word that ends
// here, those of the owed that accept it.
pub fn ends_word(ground: &Ground, person: usize, i: usize, states: StateSets) -> Family
    requires well_formed { WellFormed ground.now.table.now }
    requires arcs { Arcs ground.now.table.now ground.now.arcs.now }
    requires placed { Placed ground.now.index.now }
    requires i_bound { i < 20 }
    requires owed_lt_all_sets { ground.now.terms.owed < all_sets }
    ensures { let g = ground.now in FamilyOf (λ X. eqb (get_or g.index.now (asked_cell i 0) 0) person
        and part g.terms.constraints (accepting_set g.table.now states)
        and eqb (bit_and g.terms.owed (accepting_set g.table.now states)) X) result }
{
    if members::asked_cell(ground.index, i, 0) != person {
        return Family::none();
    }
    let terms = ground.terms;
    let accepting = moves::accepting(states, ground.table, ground.arcs);
    if terms.constraints & accepting != terms.constraints {
        return Family::none();
    }
    Family::only(terms.owed & accepting)
}

// What can be met at best is found, or all that is wanted.
pub fn is_enough(found: Family, most: AutomatonSet, wanted: Family) -> bool
    requires { most < all_sets }
    ensures { result ≡ (in_family found most or is_part wanted found) }
{
    found.has(most) || wanted.is_part(found)
}

// A principal stands at j who is in the first role, and the one at `person` is in the second, by the row.
pub fn is_middle(
    ground: &Ground,
    row: usize,
    person: usize,
    j: usize,
    first: usize,
    second: usize,
) -> bool
    requires well_formed { WellFormed ground.now.table.now }
    requires indexed { Indexed ground.now.table.now ground.now.index.now }
    requires rows_len { (length ground.now.rows.now ≡ table_cells) × (row ≤ 16) }
    requires person_bound { (person < credentials ground.now.table.now) × (j < credentials ground.now.table.now) }
    requires first_bound { (first ≤ 20) × (second ≤ 20) }
    ensures { let g = ground.now in result ≡ (in_set (get_or g.rows.now (row_cell row first) 0) j
        and in_set (get_or g.rows.now (row_cell row second) 0) person and is_person g.table.now j) }
{
    is_listed(ground.rows, row, j, first)
        && is_listed(ground.rows, row, person, second)
        && members::is_person(ground.table, ground.index, j)
}

// Levels are left, the role is defined, and the principal is in it by the row of the levels: else it need not be sought.
pub fn may_be_proved(ground: &Ground, person: usize, place: usize, levels: usize) -> bool
    requires well_formed { WellFormed ground.now.table.now }
    requires rows_len { (length ground.now.rows.now ≡ table_cells) × (ground.now.terms.last ≤ 16) }
    requires person_bound { (person < 20) × (place ≤ 20) }
    ensures { let g = ground.now in
        result ≡ may_be_proved g.table.now g.rows.now g.terms.last person place levels }
{
    0 < levels
        && place < layout::credentials(ground.table)
        && is_listed(
            ground.rows,
            row_of(levels, ground.terms.last),
            person,
            place,
        )
}

// By the row of the levels, the principal is in each role that credential i + 1 asks.
pub fn are_listed(ground: &Ground, person: usize, i: usize, levels: usize) -> bool
    requires placed { Placed ground.now.index.now }
    requires rows_len { (length ground.now.rows.now ≡ table_cells) × (ground.now.terms.last ≤ 16) }
    requires person_bound { (person < 20) × (i < 20) }
    ensures { let g = ground.now in
        result ≡ in_set (asked_members g.index.now g.rows.now (lesser levels g.terms.last) i) person }
{
    let row = row_of(levels, ground.terms.last);
    sets::has(
        masks::asked_members(ground.index, ground.rows, row, i),
        person,
    )
}

// The row that tells of so many levels: from the last row on nothing is new.
pub fn row_of(levels: usize, last: usize) -> usize
    ensures { result ≡ lesser levels last }
{
    if levels < last {
        return levels;
    }
    last
}

// By the row, the principal at `person` is in the role at `place`.
pub fn is_listed(rows: &[CredentialSet], row: usize, person: usize, place: usize) -> bool
    requires rows_len { (length rows.now ≡ table_cells) × (row ≤ 16) }
    requires person_bound { (person < 20) × (place ≤ 20) }
    ensures { result ≡ in_set (get_or rows.now (row_cell row place) 0) person }
{
    sets::has(rows[ROW * row + place], person)
}

// The state sets moved on by the role at `place`, with the automata that are dead there; where no automaton is imposed or owed nobody
// needs them.
pub fn stepped(ground: &Ground, place: usize, states: StateSets) -> Moved
    requires well_formed { WellFormed ground.now.table.now }
    requires arcs { Arcs ground.now.table.now ground.now.arcs.now }
    requires place_bound { place < credentials ground.now.table.now }
    ensures { let g = ground.now in
        result ≡ Goals.stepped_on g.table.now (bit_or g.terms.constraints g.terms.owed)
        (credential g.table.now (suc place)).role states }
{
    let asked = ground.terms.constraints | ground.terms.owed;
    if asked == 0 {
        return Moved { states, dead: 0 };
    }
    moves::moved(states, ground.table, ground.arcs, place)
}

// Some automaton that is imposed is dead.
pub fn any_dead(constraints: AutomatonSet, dead: AutomatonSet) -> bool
    ensures { result ≡ meets constraints dead }
{
    constraints & dead != 0
}

// Credential i + 1 is allowed and defines the role at `place`.
pub fn may_use(ground: &Ground, place: usize, i: usize) -> bool
    requires placed { Placed ground.now.index.now }
    requires i_bound { i < 20 }
    ensures { result ≡ usable ground.now.index.now ground.now.terms.allowed place i }
{
    sets::has(ground.terms.allowed, i) && members::role_cell(ground.index, i) == place
}

// Where nothing is owed, a chain that names a role more than once proves it once: every word is judged alike, whichever of them it
// goes through.
pub fn is_asked_before(index: &[u8], i: usize, k: usize) -> bool
    requires placed { Placed index.now }
    requires i_bound { (i < 20) × (k < 4) }
    ensures { result ≡ asked_before index.now i k }
{
    let place = members::asked_cell(index, i, k);
    (0..k).any(|j| members::asked_cell(index, i, j) == place)
}

// The family, or the owed set alone where the family has it: whoever meets that meets all.
pub fn trimmed(found: Family, owed: AutomatonSet) -> Family
    requires { owed < all_sets }
    ensures { Trimmed found owed result }
{
    if found.has(owed) {
        return Family::only(owed);
    }
    found
}

// The owed automata that are not dead.
pub fn left_owed(owed: AutomatonSet, dead: AutomatonSet) -> AutomatonSet
    requires { owed < all_sets }
    ensures { Left owed dead result }
{
    owed ^ (owed & dead)
}
