// Bytes as 16-bit numbers, low byte first, and the query that the first four are (docs/DEFINITION.md, "The listing program").
// specs/Decoding.antt says which bytes count and which numbers they hold.
#![tactic(auto)]

ghost use Rattle.std.specs.Prelude.{◌≡◌, ◌++◌, ◌/◌, ◌≤◌, drop, length};
ghost use Rattle.decoding.specs.Decoding.{counted_bytes, numbers_of, query_of, query_size};

use table::{Name, Number, Principal, Query};

const MOST_BYTES: usize = 4096;

// The bytes that count.
pub fn counted(bytes: &[u8]) -> &[u8]
    ensures { result.now ≡ counted_bytes bytes.now }
{
    &bytes[..MOST_BYTES.min(bytes.len())]
}

// Puts the numbers that the bytes hold in the first places, and leaves the others; a single byte at the end is left too.
pub fn decode(bytes: &[u8], numbers: &mut [Number])
    requires { length bytes.now / 2 ≤ length numbers.old }
    ensures { numbers.new
        ≡ numbers_of bytes.now ++ drop (length bytes.now / 2) numbers.old }
{
    for (i, pair) in bytes.chunks_exact(2).enumerate() {
        numbers[i] = Number::from_le_bytes([pair[0], pair[1]]);
    }
}

// The query's four numbers, which are the first.
pub fn query_of(numbers: &[Number]) -> Query
    requires { query_size ≤ length numbers.now }
    ensures { result ≡ query_of numbers.now }
{
    Query {
        principal: Principal(numbers[0]),
        owner: Principal(numbers[1]),
        name: Name(numbers[2]),
        depth: numbers[3],
    }
}
