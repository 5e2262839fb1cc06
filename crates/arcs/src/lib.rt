// The index of arcs, row by row: which edges match the role that a credential defines, found once and not at each move. Edges that
// lead to states of one number are one arc, which has for each automaton the mask of the states from which they lead. What is in
// the index, crate moves says (specs/Arcs.antt); which rows are made, and when, bears on time alone.
#![tactic(auto)]

ghost use Rattle.std.specs.Prelude.{◌≡◌, ◌<◌, get_or, length, replicate};
ghost use Rattle.table.specs.Layout.{credentials};
ghost use Rattle.table.specs.Holding.{WellFormed};
ghost use Rattle.moves.specs.Arcs.{Arcs, index_cells, made, made_cell};
ghost use Rattle.arcs.specs.Filling.{RowMade};

use moves::{FIRST_MADE, MADE};
use sets::StateSet;
use table::{Number, layout};

// Begins an index: the accepting sets, and no row.
pub fn begin(table: &[Number], arcs: &mut [StateSet])
    requires well_formed { WellFormed table.now }
    requires arcs_value { arcs.old ≡ replicate index_cells 0 }
    ensures { Arcs table.now arcs.new }
{
    for k in 0..layout::automata(table) {
        let automaton = layout::automaton(table, k + 1);
        arcs[k] = layout::states(automaton.accepting);
    }
}

// Asks for the row of credential `place` + 1. It is made when it is asked for the eighth time: where a role is met a few times, its
// edges are tested sooner than its arcs are made.
pub fn ask(table: &[Number], arcs: &mut [StateSet], place: usize)
    requires well_formed { WellFormed table.now }
    requires arcs { Arcs table.now arcs.old }
    requires place_bound { place < credentials table.now }
    ensures { Arcs table.now arcs.new }
{
    if arcs.is_empty() {
        return;
    }
    let asked = arcs[FIRST_MADE + place];
    if asked == MADE {
        return;
    }
    if asked < MADE - 1 {
        arcs[FIRST_MADE + place] = asked + 1;
        return;
    }
    fill(table, arcs, place);
}

// Makes the row of credential `place` + 1, unless it has been made.
pub fn make(table: &[Number], arcs: &mut [StateSet], place: usize)
    requires well_formed { WellFormed table.now }
    requires arcs { Arcs table.now arcs.old }
    requires place_bound { place < credentials table.now }
    requires arcs_len { length arcs.old ≡ index_cells }
    ensures { Arcs table.now arcs.new × RowMade place arcs.old arcs.new }
{
    if arcs[FIRST_MADE + place] == MADE {
        return;
    }
    fill(table, arcs, place);
}

// Makes a row, edge by edge. Sixteen states have no more than sixteen arcs, so there is room for each.
fn fill(table: &[Number], arcs: &mut [StateSet], place: usize)
    requires well_formed { WellFormed table.now }
    requires arcs { Arcs table.now arcs.old }
    requires place_bound { place < credentials table.now }
    requires arcs_len { length arcs.old ≡ index_cells }
    requires fact { get_or arcs.old (made_cell place) 0 ≡ made → ⊥ }
    ensures { Arcs table.now arcs.new × RowMade place arcs.old arcs.new }
{
    placing::clear(arcs, place);
    let role = layout::credential(table, place + 1).role;
    for k in 0..layout::edges(table) {
        let edge = layout::edge(table, k + 1);
        if edges::matches(edge, role) {
            let l = placing::find(arcs, place, 1 << edge.to);
            placing::put(arcs, place, l, edge);
        }
    }
    arcs[FIRST_MADE + place] = MADE;
}
