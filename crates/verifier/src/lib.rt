// The verifier's end: whether a proof record derives the queried membership by the rules of RT0 and meets every
// automaton attached to a credential that it uses (docs/DEFINITION.md, "Records" and "Words"). Crate reader reads the record.
// specs/Verdict.antt says what the answer means; specs/DemandTwo.antt states that it is right.
#![tactic(auto)]

mod words; // words.rt: row 14

ghost use Rattle.std.specs.Prelude.{◌≡◌, [], ◌∷◌};
ghost use Rattle.table.specs.Holding.{WellFormed};
ghost use Rattle.table.specs.Checks.{Valid};
ghost use Rattle.moves.specs.Arcs.{Arcs};
ghost use Rattle.derivation.specs.Rules.{goal_of};
ghost use Rattle.reader.specs.Reading.{reader};
ghost use Rattle.verifier.specs.Verdict.{judged, verdict, verdict_told};

use automata::StateSets;
use branches::Branch;
use entering::WordsKept;
use reader::Tally;
use sets::{CredentialSet, StateSet};
use table::{Number, Query, Reason, Refusal, layout};

// So many numbers make a record long.
const LONG: usize = 64;

// The used set of a record that derives the queried membership and complies, where credential i counts 2^(i-1): the request's
// rows, then 11 to 14, for any three inputs.
pub fn verify(table: &[Number], query: Query, rec: &[Number]) -> Result<CredentialSet, Refusal>
    ensures { verdict_told result ≡ verdict table.now query rec.now }
{
    checks::check_request(table, query)?;
    judge(table, query, rec)
}

// Rows 11 to 14. A short record is read without an index of arcs, which would take longer to make than it saves.
fn judge(table: &[Number], query: Query, rec: &[Number]) -> Result<CredentialSet, Refusal>
    requires well_formed { WellFormed table.now }
    requires valid { Valid query }
    ensures { verdict_told result
        ≡ judged table.now (reader table.now query.depth [] (goal_of query ∷ []) rec.now 1) }
{
    if rec.len() < LONG {
        return judge_by(table, query, rec, &mut []);
    }
    let mut arcs = [0; moves::INDEX_CELLS];
    arcs::begin(table, &mut arcs);
    judge_by(table, query, rec, &mut arcs)
}

// The same with an index of arcs. The goal is at level 1, with nothing above it.
fn judge_by(
    table: &[Number],
    query: Query,
    rec: &[Number],
    arcs: &mut [StateSet],
) -> Result<CredentialSet, Refusal>
    requires well_formed { WellFormed table.now }
    requires valid { Valid query }
    requires arcs { Arcs table.now arcs.old }
    ensures { verdict_told result
        ≡ judged table.now (reader table.now query.depth [] (goal_of query ∷ []) rec.now 1) }
{
    let mut tally = Tally {
        used: 0,
        nodes: 0,
        words: WordsKept {
            every: words::ALL_AUTOMATA,
            some: 0,
        },
    };
    let goal = derivation::goal_of(query);
    let levels = layout::wide(query.depth);
    let start = StateSets::start(table);
    let (rest, told) = reader::read(
        table,
        rec,
        goal,
        levels,
        start,
        Branch::empty(),
        arcs,
        &mut tally,
    );
    match told {
        Ok(()) => {}
        Err(reason) => {
            return Err(Refusal {
                reason,
                position: tally.nodes,
            });
        }
    }
    if rest.len() != 0 {
        return Err(Refusal {
            reason: Reason::RecordLength,
            position: tally.nodes + 1,
        });
    }
    words::judge_words(table, tally.used, tally.words.every, tally.words.some)
}
