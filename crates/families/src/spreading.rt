// A word of a family is a set of numbers below 32, which are the five low bits of its sets. Bits are put into all of its numbers
// at once: for each bit, those that lack it move up by what it counts. specs/Families.antt says which numbers are there then.
ghost use Rattle.std.specs.Prelude.{◌≡◌, ◌<◌, ◌^◌};
ghost use Rattle.sets.specs.Sets.{in_set, set_of};
ghost use Rattle.families.specs.Families.{Spread, word_bits, word_sets};

use sets::AutomatonSet;

const WORD_BITS: usize = 5;

// The numbers below 32 that have bit 0, those that have bit 1, and so on.
const HAVING: [u32; WORD_BITS] = [0xAAAAAAAA, 0xCCCCCCCC, 0xF0F0F0F0, 0xFF00FF00, 0xFFFF0000];

// The unions of `low` and a number of the word.
pub fn spread(word: u32, low: AutomatonSet) -> u32
    requires { low < word_sets }
    ensures { Spread word low result }
{
    let mut all = word;
    for i in 0..WORD_BITS {
        if sets::has(low, i) {
            all = lifted(all, i);
        }
    }
    all
}

// The numbers of the word with bit i.
fn lifted(word: u32, i: usize) -> u32
    requires { i < word_bits }
    ensures { Spread word (2 ^ i) result }
{
    let own = word & having(i);
    own | ((word ^ own) << (1u32 << i))
}

// The numbers below 32 that have bit i.
fn having(i: usize) -> u32
    requires { i < word_bits }
    ensures { result ≡ set_of (λ x. in_set x i) word_sets }
{
    HAVING[i]
}
