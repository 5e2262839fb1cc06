// The least middle with which a credential of kind 3 proves its goal such that what is wanted can be met. Principals stand in the
// order of their first simple memberships (crate members), and are compared here by their numbers.
ghost use Rattle.std.specs.Prelude.{◌≡◌, true, suc, ◌<◌, ◌≤◌, ◌^◌, length, MatchOption, unwrap_or};
ghost use Rattle.table.specs.Limits.{most_depth};
ghost use Rattle.table.specs.Layout.{credential, credentials};
ghost use Rattle.table.specs.Holding.{WellFormed};
ghost use Rattle.members.specs.Members.{Indexed, table_cells};
ghost use Rattle.members.specs.Places.{is_person};
ghost use Rattle.members.specs.Trying.{proves_by};
ghost use Rattle.search.specs.Search.{Tried, goal_at};
ghost use Rattle.search.specs.Grounds.{RememberedOn, SearchableOn};
ghost use Rattle.choice.specs.Choice.{LeastMiddle, LeastNamed, Wanted, comes_before, leads};
ghost use Rattle.choice.specs.Choice.{listed_middles, suits_on, word_on};

use families::Family;
use goals::{Ground, Spot};
use sets::CredentialSet;
use table::{Number, layout};

// Where the middle of the least number stands with which credential i + 1 proves its goal. Those whom the table of members has
// are tried in the order of their numbers; the last that is left needs no search.
pub fn least_middle(
    ground: &Ground,
    wanted: Family,
    person: usize,
    i: usize,
    spot: Spot,
    memory: &mut [u32],
) -> usize
    requires searchable { SearchableOn ground.now spot.levels }
    requires tried { Tried ground.now.table.now person i × ((credential ground.now.table.now (suc i)).kind ≡ 3) }
    requires wanted { Wanted ground.now.terms.owed wanted }
    requires remembered { RememberedOn ground.now memory.old }
    requires i_value { let g = ground.now in proves_by g.table.now
        (suits_on g wanted spot) (word_on g wanted spot) (goal_at g.table.now person i) (suc i) ≡ true }
    ensures { let g = ground.now in LeastMiddle g.table.now (leads g.table.now
        (suits_on g wanted spot) (word_on g wanted spot) (goal_at g.table.now person i) (suc i)) result
        × RememberedOn g memory.new }
{
    let row = goals::row_of(spot.levels, ground.terms.last);
    let mut left = listed_middles(ground, row, person, i);
    while left & (left - 1) != 0 {
        let j = least_named(ground.table, left);
        if leads_on(ground, wanted, person, i, j, spot, memory) {
            return j;
        }
        left ^= 1 << j;
    }
    least_named(ground.table, left)
}

// The principals whom the row has as middles of credential i + 1.
fn listed_middles(ground: &Ground, row: usize, person: usize, i: usize) -> CredentialSet
    requires well_formed { WellFormed ground.now.table.now }
    requires indexed { Indexed ground.now.table.now ground.now.index.now }
    requires rows_len { (length ground.now.rows.now ≡ table_cells) × (row ≤ most_depth) }
    requires person_bound { (person < credentials ground.now.table.now) × (i < credentials ground.now.table.now) }
    ensures { let g = ground.now in
        result ≡ listed_middles g.table.now g.index.now g.rows.now row person i (credentials g.table.now) }
{
    let first = members::asked_cell(ground.index, i, 0);
    sets::those(layout::credentials(ground.table), |j| {
        let second = members::link_cell(ground.index, i, j);
        goals::is_middle(ground, row, person, j, first, second)
    })
}

// Of the principals at the places, where the one of the least number stands.
fn least_named(table: &[Number], places: CredentialSet) -> usize
    requires well_formed { WellFormed table.now }
    requires places_bound { (places < 2 ^ credentials table.now) × (places ≡ 0 → ⊥) }
    ensures { LeastNamed table.now places result }
{
    let n = layout::credentials(table);
    let mut best = None;
    for j in 0..n {
        if sets::has(places, j) && comes_before(table, j, best) {
            best = Some(j);
        }
    }
    best.unwrap_or(n)
}

// The first number of credential j + 1 is less than that of `best` + 1, or there is no such credential.
fn comes_before(table: &[Number], j: usize, best: Option<usize>) -> bool
    requires well_formed { WellFormed table.now }
    requires j_bound { j < credentials table.now }
    requires best_bound { MatchOption best (Unit {0}) (λ b. b < credentials table.now) }
    ensures { result ≡ comes_before table.now j (unwrap_or best (credentials table.now)) }
{
    let Some(best) = best else {
        return true;
    };
    let one = layout::credential(table, j + 1);
    let other = layout::credential(table, best + 1);
    one.first < other.first
}

// With the principal at j as the middle credential i + 1 proves its goal: what both goals can meet together is wanted.
fn leads_on(
    ground: &Ground,
    wanted: Family,
    person: usize,
    i: usize,
    j: usize,
    spot: Spot,
    memory: &mut [u32],
) -> bool
    requires searchable { SearchableOn ground.now spot.levels }
    requires tried { Tried ground.now.table.now person i × ((credential ground.now.table.now (suc i)).kind ≡ 3) }
    requires j_bound { (j < credentials ground.now.table.now) × (is_person ground.now.table.now j ≡ true) }
    requires wanted { Wanted ground.now.terms.owed wanted }
    requires remembered { RememberedOn ground.now memory.old }
    ensures { let g = ground.now in (result ≡ leads g.table.now
        (suits_on g wanted spot) (word_on g wanted spot) (goal_at g.table.now person i) (suc i) j)
        × RememberedOn g memory.new }
{
    let first = members::asked_cell(ground.index, i, 0);
    let one = search::goal_search(ground, j, first, spot, memory);
    if one.found.is_none() {
        return false;
    }
    let second = members::link_cell(ground.index, i, j);
    let two = search::goal_search(ground, person, second, spot, memory);
    one.found.joined(two.found).meets(wanted)
}
