// One row of an index of arcs, cell by cell: it is cleared, an arc is looked for in it, and an edge is put into an arc
// (specs/Placing.antt). Crate moves says what is in the index, crate arcs which edges go into a row.
#![tactic(auto)]

ghost use Rattle.std.specs.Prelude.{◌≡◌, ◌<◌, ◌≤◌, length};
ghost use Rattle.table.specs.Limits.{last_state, most_automata, most_credentials};
ghost use Rattle.table.specs.Layout.{Numbered};
ghost use Rattle.moves.specs.Arcs.{index_cells, most_arcs};
ghost use Rattle.placing.specs.Placing.{ArcFound, Cleared, arc_with};

use automata::AUTOMATA;
use moves::{ARC_CELLS, FIRST_ROW, MOST_ARCS, ROW_CELLS};
use sets::StateSet;
use table::{Edge, layout};

// The row of credential `place` + 1 without arcs.
pub fn clear(arcs: &mut [StateSet], place: usize)
    requires { (length arcs.old ≡ index_cells) × (place < most_credentials) }
    ensures { Cleared place arcs.old arcs.new }
{
    let row = FIRST_ROW + ROW_CELLS * place;
    arcs[row..row + ROW_CELLS].fill(0);
}

// The arc that leads to the state of the mask; where there is none, the first that leads nowhere yet.
pub fn find(arcs: &[StateSet], place: usize, to: StateSet) -> usize
    requires { (length arcs.now ≡ index_cells) × (place < most_credentials) }
    ensures { ArcFound arcs.now place to result }
{
    let row = FIRST_ROW + ROW_CELLS * place;
    for l in 0..MOST_ARCS {
        let other = arcs[row + ARC_CELLS * l + AUTOMATA];
        if other == to || other == 0 {
            return l;
        }
    }
    MOST_ARCS
}

// Arc l leads to the edge's `to` state, for the edge's automaton from the edge's `from` state too.
pub fn put(arcs: &mut [StateSet], place: usize, l: usize, edge: Edge)
    requires arcs_len { (length arcs.old ≡ index_cells) × (place < most_credentials) }
    requires l_lt_most_arcs { l < most_arcs }
    requires numbered { Numbered most_automata edge.automaton × ((edge.from ≤ last_state) × (edge.to ≤ last_state)) }
    ensures { arcs.new ≡ arc_with arcs.old place l edge }
{
    let at = FIRST_ROW + ROW_CELLS * place + ARC_CELLS * l;
    let own = at + (layout::wide(edge.automaton) - 1);
    arcs[at + AUTOMATA] = 1 << edge.to;
    arcs[own] |= 1 << edge.from;
}
