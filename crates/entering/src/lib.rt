// One node of a record: rows 11 to 13 of docs/DEFINITION.md, "Where each input is stopped", and what is kept once the node is
// entered. specs/Entry.antt says how a node is entered.
#![tactic(auto)]

ghost use Rattle.std.specs.Prelude.{◌≡◌, ◌-◌, ◌^◌};
ghost use Rattle.std.specs.Int.Bits.{bit_and, bit_or};
ghost use Rattle.table.specs.Limits.{most_credentials};
ghost use Rattle.table.specs.Layout.{Numbered};
ghost use Rattle.table.specs.Holding.{WellFormed};
ghost use Rattle.moves.specs.Arcs.{Arcs};
ghost use Rattle.branches.specs.Held.{above};
ghost use Rattle.entering.specs.Entry.{entry};
ghost use Rattle.entering.specs.Steps.{after_node, may, stepped};

use automata::StateSets;
use branches::Branch;
use derivation::{Premises, rules};
use sets::{AutomatonSet, CredentialSet, StateSet};
use table::{Goal, Number, Reason, layout};

// A node that is entered: its two numbers, and what it asks.
#[derive(Clone, Copy)]
pub struct Step {
    pub credential: Number,
    pub middle: Number,
    pub asked: Premises,
}

// The automata that have accepted every word so far, and those that have accepted some word.
#[derive(Clone, Copy)]
pub struct WordsKept {
    pub every: AutomatonSet,
    pub some: AutomatonSet,
}

// Rows 11, 12 and 13 of one node, in that order.
pub fn enter(
    table: &[Number],
    rec: &[Number],
    goal: Goal,
    levels: usize,
    branch: &Branch,
) -> Result<Step, Reason>
    requires { WellFormed table.now }
    ensures { stepped result rec.now ≡ entry table.now (may levels (above branch.now) goal) goal rec.now }
{
    if rec.len() < 2 {
        return Err(Reason::RecordLength);
    }
    let Some(asked) = rules::premises(table, goal, rec[0], rec[1]) else {
        return Err(Reason::Node);
    };
    if levels == 0 || !branch.is_fresh(goal) {
        return Err(Reason::Branch);
    }
    Ok(Step {
        credential: rec[0],
        middle: rec[1],
        asked,
    })
}

// The used set with credential c.
pub fn with_credential(used: CredentialSet, c: Number) -> CredentialSet
    requires { Numbered most_credentials c }
    ensures { result ≡ bit_or used (2 ^ (c - 1)) }
{
    sets::with(used, layout::wide(c) - 1)
}

// What is kept of the words once a node is entered: a node that asks nothing ends a word.
pub fn after_node(
    table: &[Number],
    arcs: &[StateSet],
    kept: WordsKept,
    states: StateSets,
    len: usize,
) -> WordsKept
    requires well_formed { WellFormed table.now }
    requires arcs { Arcs table.now arcs.now }
    ensures { (result.every ≡ after_node bit_and table.now kept.every states len)
        × (result.some ≡ after_node bit_or table.now kept.some states len) }
{
    if len != 0 {
        return kept;
    }
    let accepting = moves::accepting(states, table, arcs);
    WordsKept {
        every: kept.every & accepting,
        some: kept.some | accepting,
    }
}
