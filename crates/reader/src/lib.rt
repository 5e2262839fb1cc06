// A record, read node by node in preorder: rows 11 to 13 of docs/DEFINITION.md, "Where each input is stopped". The reader of a
// sub-derivation hands back the rest of the caller's record, from the next node on; what it keeps on the way it keeps in a tally
// that the caller lends. What is done at one node is in the crate entering. specs/Reading.antt says how a record is read,
// specs/Tally.antt what is kept.
#![tactic(auto)]

ghost use Rattle.std.specs.Prelude.{◌≡◌, ◌+◌, ◌^◌, ◌<◌, ◌≤◌, length, MatchResult};
ghost use Rattle.table.specs.Limits.{most_depth};
ghost use Rattle.table.specs.Holding.{WellFormed};
ghost use Rattle.moves.specs.Arcs.{Arcs};
ghost use Rattle.branches.specs.Held.{above};
ghost use Rattle.reader.specs.Tally.{ReadOn, StopsAt};

use automata::StateSets;
use branches::Branch;
use entering::WordsKept;
use sets::{CredentialSet, StateSet};
use table::{Goal, Number, Reason, layout};

// What is kept on the way: the used set, how many nodes have been read, and which automata have accepted the words so far.
#[derive(Clone, Copy)]
pub struct Tally {
    pub used: CredentialSet,
    pub nodes: usize,
    pub words: WordsKept,
}

// Reads the derivation of a goal from the front of the record, and hands back what is left after it. A refusal stops it at node
// number `tally.nodes`; then the whole record is handed back, and the rest of the tally means nothing.
pub fn read<'a>(
    table: &[Number],
    rec: &'a [Number],
    goal: Goal,
    levels: usize,
    states: StateSets,
    branch: Branch,
    arcs: &mut [StateSet],
    tally: &mut Tally,
) -> (&'a [Number], Result<(), Reason>)
    requires well_formed { WellFormed table.now }
    requires levels_fit { length (above branch) + levels ≤ most_depth }
    requires rec_bound { tally.old.nodes + length rec.now < 2 ^ 63 }
    requires arcs { Arcs table.now arcs.old }
    ensures told { MatchResult result.1
        (λ _. ReadOn table.now levels (above branch) goal states rec.now tally.old result.0.now tally.new)
        (λ why. StopsAt table.now levels (above branch) goal states rec.now tally.old result.0.now why tally.new) }
    ensures arcs { Arcs table.now arcs.new }
{
    tally.nodes += 1;
    let step = match entering::enter(table, rec, goal, levels, &branch) {
        Ok(step) => step,
        Err(why) => return (rec, Err(why)),
    };
    // a dead automaton stops nothing: it may belong to no used credential, and 11 to 13 of a later node come before 14
    let place = layout::wide(step.credential) - 1;
    arcs::ask(table, arcs, place);
    let below = moves::moved(states, table, arcs, place).states;
    tally.used = entering::with_credential(tally.used, step.credential);
    tally.words = entering::after_node(table, arcs, tally.words, below, step.asked.len());
    let mut rest = &rec[2..];
    // a node that asks nothing hands no branch on, and making one copies all the goals above
    if step.asked.len() == 0 {
        return (rest, Ok(()));
    }
    let deeper = branch.with(goal);
    for next in step.asked.as_slice() {
        let (left, told) = read(table, rest, *next, levels - 1, below, deeper, arcs, tally);
        match told {
            Ok(()) => rest = left,
            Err(why) => return (rec, Err(why)),
        }
    }
    (rest, Ok(()))
}
