// How a C call is answered: a query from its four numbers, and a result with the value or the position that is written.
// specs/Answer.antt says what outcome these are.
#![tactic(auto)]

ghost use Rattle.std.specs.Prelude.{◌≡◌};
ghost use Rattle.table.specs.Checks.{as_query, outcome_of};
ghost use Rattle.answers.specs.Answer.{answered};

use table::{Name, Principal, Query, Refusal};

// A query's four numbers, in the definition's order.
pub fn query_of(principal: u16, owner: u16, name: u16, depth: u16) -> Query
    ensures { result ≡ as_query principal owner name depth }
{
    Query {
        principal: Principal(principal),
        owner: Principal(owner),
        name: Name(name),
        depth,
    }
}

// Accepted: the result is 0, and the value is written. Refused: it is the refusal's number, and the position is written.
pub fn answer(outcome: Result<u64, Refusal>, value: &mut u64) -> u32
    ensures { answered result value.new ≡ outcome_of (λ v. v) outcome }
{
    match outcome {
        Ok(accepted) => {
            *value = accepted;
            0
        }
        Err(why) => {
            *value = why.position as u64;
            why.reason.into()
        }
    }
}
