// State sets of all automata of a table, and how they move along a role, by what the table says (docs/DEFINITION.md, "Words"). The
// sets of all eight travel together, by value: each child of a node starts from its own copy. Crate moves has a faster way.
#![tactic(auto)]

ghost use Rattle.std.specs.Prelude.{◌≡◌};
ghost use Rattle.table.specs.Holding.{WellFormed};
ghost use Rattle.automata.specs.Together.{accepting_set, dead_set, moved_sets, starting_sets};

use sets::{AutomatonSet, StateSet};
use table::{Number, Role, layout};

// As many as a table can have automata.
pub const AUTOMATA: usize = 8;

// The state set of automaton k stands at k - 1; an automaton that is not there has the empty set.
#[derive(Clone, Copy)]
pub struct StateSets {
    pub sets: [StateSet; AUTOMATA],
}

// The state sets one role on, and the automata that are dead there: automaton k counts 2^(k-1). An automaton is dead where it is
// one of the table's and has no state left. Its set stays empty, so it accepts no word that goes on from there.
#[derive(Clone, Copy)]
pub struct Moved {
    pub states: StateSets,
    pub dead: AutomatonSet,
}

impl StateSets {
    // Every automaton in its starting set.
    pub fn start(table: &[Number]) -> StateSets
        requires { WellFormed table.now }
        ensures { result ≡ starting_sets table.now }
    {
        let mut sets = [0; AUTOMATA];
        for k in 0..layout::automata(table) {
            let automaton = layout::automaton(table, k + 1);
            sets[k] = layout::states(automaton.starting);
        }
        StateSets { sets }
    }

    // Every automaton's set moved along the role, edge by edge. Most edges give nothing: to test that is faster than to write.
    pub fn by_edges(self, table: &[Number], role: Role) -> StateSets
        requires { WellFormed table.now }
        ensures { result ≡ moved_sets table.now role self }
    {
        let mut next = StateSets {
            sets: [0; AUTOMATA],
        };
        for k in 0..layout::edges(table) {
            let edge = layout::edge(table, k + 1);
            let at = layout::wide(edge.automaton) - 1;
            let to = edges::gives(edge, role, self.sets[at]);
            if to != 0 {
                next.sets[at] |= to;
            }
        }
        next
    }

    // The automata that accept where their sets are now, as a set: automaton k counts 2^(k-1). Each accepting set is read from the
    // table.
    pub fn accepting_by_table(self, table: &[Number]) -> AutomatonSet
        requires { WellFormed table.now }
        ensures { result ≡ accepting_set table.now self }
    {
        sets::those(layout::automata(table), |k| {
            let automaton = layout::automaton(table, k + 1);
            self.sets[k] & layout::states(automaton.accepting) != 0
        })
    }

    // The table's automata that have no state, as a set: automaton k counts 2^(k-1).
    pub fn dead(self, table: &[Number]) -> AutomatonSet
        requires { WellFormed table.now }
        ensures { result ≡ dead_set table.now self }
    {
        sets::those(layout::automata(table), |k| self.sets[k] == 0)
    }
}
