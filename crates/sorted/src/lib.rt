// The least numbers found so far, ascending, in a buffer of any length. It serves a listing that finds its sets in no order.
// specs/Sorted.antt says what the buffer holds.
#![tactic(auto)]

ghost use Rattle.std.specs.Prelude.{◌^◌, ◌<◌};
ghost use Rattle.sorted.specs.Sorted.{Inserted};

// Puts a number among those that the buffer holds, in its place; where the buffer is full the greatest is dropped. It counts
// in any case. From the last number held each greater one moves up by a cell, so only these cost time.
pub fn insert(numbers: &mut [u32], found: &mut usize, number: u32)
    requires { found.old < 2 ^ 32 }
    ensures { Inserted numbers.old found.old number numbers.new found.new }
{
    let cells = numbers.len();
    let held = cells.min(*found);
    let mut place = held;
    while 0 < place && number < numbers[place - 1] {
        place -= 1;
    }
    if place < cells {
        numbers.copy_within(place..held.min(cells - 1), place + 1);
        numbers[place] = number;
    }
    *found += 1;
}
