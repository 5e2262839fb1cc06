// Rows 1 to 3, which check the head and the table's length, and the refusal of a row that was searched.
ghost use Rattle.std.specs.Prelude.{◌≡◌, ℕ, Bool, OnOk};
ghost use Rattle.table.specs.Outcome.{demand_each};
ghost use Rattle.table.specs.Holding.{Sized};
ghost use Rattle.table.specs.Checks.{head_outcome, number_of};
ghost use Rattle.scans.specs.Rows.{FoundBad};
ghost use Rattle.checks.specs.Told.{table_told};

use table::layout::HEAD_SIZE;
use table::{Number, Reason, Refusal, layout};

// Rows 1 to 3.
pub fn check_head(table: &[Number]) -> Result<(), Refusal>
    ensures told { table_told result ≡ head_outcome table.now }
    ensures sized { OnOk result (Sized table.now) }
{
    if table.len() < HEAD_SIZE {
        return Err(Reason::ShortHead.into());
    }
    if !scans::counts_ok(table) {
        return Err(Reason::CountOverLimit.into());
    }
    if table.len() != layout::table_length(table) {
        return Err(Reason::WrongLength.into());
    }
    Ok(())
}

// A row that was searched: refused at the first bad record, if one was found.
pub fn none_bad(found: Option<usize>, reason: Reason) -> Result<(), Refusal>
    ensures { (ok : ℕ → Bool) (n : ℕ) → FoundBad ok n found → table_told result ≡ demand_each ok n (number_of reason) }
{
    match found {
        Some(position) => Err(Refusal { reason, position }),
        None => Ok(()),
    }
}
