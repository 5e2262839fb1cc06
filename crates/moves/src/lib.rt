// How the state sets of all eight automata move along a role, and which automata accept, by an index of arcs (docs/DEFINITION.md,
// "Words"; specs/Arcs.antt). Where the index has no row for a role, or there is no index, the table tells.
#![tactic(auto)]

ghost use Rattle.std.specs.Prelude.{◌≡◌, ◌⊎◌, suc, ◌+◌, ◌<◌, ◌≤◌, get_or, length, eqb};
ghost use Rattle.table.specs.Limits.{most_credentials};
ghost use Rattle.table.specs.Layout.{credential, credentials};
ghost use Rattle.table.specs.Holding.{WellFormed};
ghost use Rattle.automata.specs.Together.{accepting_set, moved_on, moved_sets};
ghost use Rattle.moves.specs.Arcs.{Arcs, Ended, arc_cells, index_cells, led_sets, made, made_cell, most_arcs, with_arc};

use automata::{AUTOMATA, Moved, StateSets};
use sets::{AutomatonSet, StateSet};
use table::{Number, layout};

// An index of arcs (specs/Arcs.antt): the accepting sets, then for each credential whether its row has been made, then the rows.
pub const MOST_ARCS: usize = 16;

pub const ARC_CELLS: usize = AUTOMATA + 1;

pub const ROW_CELLS: usize = ARC_CELLS * MOST_ARCS;

pub const FIRST_MADE: usize = AUTOMATA;

pub const FIRST_ROW: usize = FIRST_MADE + layout::MOST_CREDENTIALS as usize;

pub const INDEX_CELLS: usize = FIRST_ROW + ROW_CELLS * layout::MOST_CREDENTIALS as usize;

// The mark of a row that has been made.
pub const MADE: StateSet = 8;

// Every automaton's set moved along the role that credential `place` + 1 defines, and which automata have no state left then.
pub fn moved(states: StateSets, table: &[Number], arcs: &[StateSet], place: usize) -> Moved
    requires well_formed { WellFormed table.now }
    requires arcs { Arcs table.now arcs.now }
    requires place_bound { place < credentials table.now }
    ensures { result ≡ moved_on table.now (credential table.now (suc place)).role states }
{
    let below = next(states, table, arcs, place);
    Moved {
        states: below,
        dead: below.dead(table),
    }
}

// The automata that accept where their sets are now, as a set: automaton k counts 2^(k-1). An index has the accepting sets,
// else they are read from the table.
pub fn accepting(states: StateSets, table: &[Number], arcs: &[StateSet]) -> AutomatonSet
    requires well_formed { WellFormed table.now }
    requires arcs { Arcs table.now arcs.now }
    ensures { result ≡ accepting_set table.now states }
{
    if arcs.is_empty() {
        return states.accepting_by_table(table);
    }
    sets::those(AUTOMATA, |k| states.sets[k] & arcs[k] != 0)
}

// Every automaton's set moved along the role that credential `place` + 1 defines: by its arcs where its row has been made, else by
// the edges.
fn next(states: StateSets, table: &[Number], arcs: &[StateSet], place: usize) -> StateSets
    requires well_formed { WellFormed table.now }
    requires arcs { Arcs table.now arcs.now }
    requires place_bound { place < credentials table.now }
    ensures { result ≡ moved_sets table.now (credential table.now (suc place)).role states }
{
    if is_made(arcs, place) {
        return by_arcs(states, arcs, place);
    }
    let credential = layout::credential(table, place + 1);
    states.by_edges(table, credential.role)
}

// Whether the row of credential `place` + 1 has been made.
fn is_made(arcs: &[StateSet], place: usize) -> bool
    requires fact { (length arcs.now ≡ 0) ⊎ (length arcs.now ≡ index_cells) }
    requires place_lt_most_credentials { place < most_credentials }
    ensures { result ≡ eqb (get_or arcs.now (made_cell place) 0) made }
{
    !arcs.is_empty() && arcs[FIRST_MADE + place] == MADE
}

// What the arcs of a row give, until one leads nowhere.
fn by_arcs(states: StateSets, arcs: &[StateSet], place: usize) -> StateSets
    requires arcs_len { (length arcs.now ≡ index_cells) × (place < most_credentials) }
    requires ended { Ended arcs.now place }
    ensures { result ≡ led_sets arcs.now place states most_arcs }
{
    let mut next = StateSets {
        sets: [0; AUTOMATA],
    };
    let row = FIRST_ROW + ROW_CELLS * place;
    for l in 0..MOST_ARCS {
        let at = row + ARC_CELLS * l;
        if arcs[at + AUTOMATA] == 0 {
            return next;
        }
        next = by_arc(states, next, arcs, at);
    }
    next
}

// The sets `next` with what one arc gives, for all eight automata alike.
fn by_arc(states: StateSets, next: StateSets, arcs: &[StateSet], at: usize) -> StateSets
    requires { at + arc_cells ≤ length arcs.now }
    ensures { result ≡ with_arc arcs.now at states next }
{
    let mut sets = next.sets;
    let to = arcs[at + AUTOMATA];
    for k in 0..AUTOMATA {
        sets[k] |= edges::given(states.sets[k], arcs[at + k], to);
    }
    StateSets { sets }
}
