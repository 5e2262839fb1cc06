// The listing program's input (docs/DEFINITION.md, "The listing program"): bytes as 16-bit numbers (crate decoding), the query's
// four and then the table. specs/Input.antt says what is told of it.
#![tactic(auto)]

ghost use Rattle.std.specs.Prelude.{◌≡◌, ◌≤◌, length};
ghost use Rattle.listing.specs.Minimal.{buffer_after, listing, listing_told};
ghost use Rattle.decoding.specs.Decoding.{query_of, query_size};
ghost use Rattle.input.specs.Input.{input_buffer, input_outcome, table_of};

use sets::CredentialSet;
use table::{Number, Reason, Refusal};

const MOST_NUMBERS: usize = 2048;

const QUERY_SIZE: usize = 4;

// Lists the minimal sets for the query and the table that the bytes hold; the buffer is as `list` leaves it. Bytes after the
// first 4,096 are ignored and not counted. An odd count, or one too small for a query, is refused as a short head.
pub fn list_input(bytes: &[u8], sets: &mut [CredentialSet]) -> Result<usize, Refusal>
    ensures { (listing_told result ≡ input_outcome bytes.now (length sets.old))
        × (sets.new ≡ input_buffer bytes.now sets.old) }
{
    let read = decoding::counted(bytes);
    let half = read.len() / 2;
    if read.len() != 2 * half {
        return Err(Reason::ShortHead.into());
    }
    if half < QUERY_SIZE {
        return Err(Reason::ShortHead.into());
    }
    let mut numbers = [0; MOST_NUMBERS];
    decoding::decode(read, &mut numbers);
    list_numbers(&numbers[..half], sets)
}

// The query's four numbers, then the table.
fn list_numbers(numbers: &[Number], sets: &mut [CredentialSet]) -> Result<usize, Refusal>
    requires { query_size ≤ length numbers.now }
    ensures { (listing_told result
        ≡ listing (table_of numbers.now) (query_of numbers.now) (length sets.old))
        × (sets.new
        ≡ buffer_after (table_of numbers.now) (query_of numbers.now) sets.old) }
{
    let query = decoding::query_of(numbers);
    listing::list(&numbers[QUERY_SIZE..], query, sets)
}
