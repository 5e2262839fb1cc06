// What a search remembers of a goal: the levels left, the state sets, the blocking pairs, which are pairs of the branch, and a family
// of sets of automata. Below every branch that has the blocking pairs the goal can meet no set that the family does not cover. A goal
// whose family has no set fails there.
// specs/Failures.antt says what the cells hold.
#![tactic(auto)]

ghost use Rattle.std.specs.Prelude.{◌≡◌, ℕ, true, ◌+◌, ◌<◌, ◌≤◌, get_or, length};
ghost use Rattle.table.specs.Limits.{most_credentials, most_depth};
ghost use Rattle.failures.specs.Failures.{BlockingAt, FamilyAt, Joined, SlotWritten, Recalled, SlotIn, SlotsIn, Spared};
ghost use Rattle.failures.specs.Cells.{CoveredAt, StatesAt, Written};

use automata::StateSets;
use families::Family;
use members::Above;
use sets::CredentialSet;
use std::array;
use table::layout;

// A memory is slots of forty cells each, at least one.
pub const SLOT_CELLS: usize = 40;

const FIRST_STATE: usize = 4;

const FIRST_BLOCKING: usize = 12;

const FIRST_WORD: usize = 32;

// A memory of 128 slots is lent where much is searched, and one of 8 where little is.
const SLOTS: usize = 128;

const FEW_SLOTS: usize = 8;

pub const CELLS: usize = SLOT_CELLS * SLOTS;

pub const FEW_CELLS: usize = SLOT_CELLS * FEW_SLOTS;

// A set with no more members is small.
const FEW_MEMBERS: u32 = 8;

const ROLES: usize = layout::MOST_CREDENTIALS as usize;

// The sum by which a goal finds its slot takes in one state set after another, times this, and stays below 2^21: three digits to
// the base of `SPREAD`, which are brought together at the end.
const FACTOR: usize = 37;

const SPREAD: usize = 128;

const SUMS: usize = SPREAD * SPREAD * SPREAD;

// Whether the set has at most eight members. It only decides how much memory is lent, so no fact rests on it.
pub fn is_small(set: CredentialSet) -> bool {
    set.count_ones() <= FEW_MEMBERS
}

// How many whole slots the memory has.
pub fn slot_count(memory: &[u32]) -> usize
    ensures { SlotsIn memory.now result }
{
    memory.len() / SLOT_CELLS
}

// The slot, of so many, of a goal that is asked from these state sets; goals that share one put each other out.
pub fn slot(person: usize, place: usize, states: StateSets, count: usize) -> usize
    requires person_lt_most_credentials { (person < most_credentials) × (place < most_credentials) }
    requires count_nonzero { 0 < count }
    ensures { result < count }
{
    let mut sum = person * ROLES + place;
    for set in states.sets {
        sum = (sum * FACTOR + usize::from(set)) % SUMS;
    }
    // the upper states of a set count only in the upper digits; the mask spreads evenly where the slots are a power of 2
    (sum + sum / SPREAD + sum / SPREAD / SPREAD) & (count - 1)
}

// Slot k tells what the goal can meet below this branch, with so many levels left.
pub fn recalls(
    memory: &[u32],
    k: usize,
    person: usize,
    place: usize,
    levels: usize,
    states: StateSets,
    above: Above,
) -> bool
    requires { SlotIn memory.now k }
    ensures { result ≡ true → Recalled memory.now k person place levels states above }
{
    let at = SLOT_CELLS * k;
    levels <= memory[at] as usize
        && memory[at + 1] as usize == person
        && memory[at + 2] as usize == place
        && same_states(memory, k, states)
        && is_covered(memory, k, above)
}

// Slot k has these state sets.
fn same_states(memory: &[u32], k: usize, states: StateSets) -> bool
    requires { SlotIn memory.now k }
    ensures { result ≡ true → StatesAt memory.now k states }
{
    memory[SLOT_CELLS * k + FIRST_STATE..]
        .iter()
        .zip(&states.sets)
        .all(|(&cell, &set)| cell == u32::from(set))
}

// Each blocking pair of slot k is on this branch.
fn is_covered(memory: &[u32], k: usize, above: Above) -> bool
    requires { SlotIn memory.now k }
    ensures { result ≡ true → CoveredAt memory.now k above }
{
    memory[SLOT_CELLS * k + FIRST_BLOCKING..]
        .iter()
        .zip(&above.persons)
        .all(|(&blocking, &persons)| blocking & persons == blocking)
}

// The blocking pairs of slot k.
pub fn blocking_at(memory: &[u32], k: usize) -> Above
    requires { SlotIn memory.now k }
    ensures { BlockingAt memory.now k result }
{
    Above {
        persons: read(memory, SLOT_CELLS * k + FIRST_BLOCKING),
    }
}

// The family of slot k.
pub fn family_at(memory: &[u32], k: usize) -> Family
    requires { SlotIn memory.now k }
    ensures { FamilyAt memory.now k result }
{
    Family {
        words: read(memory, SLOT_CELLS * k + FIRST_WORD),
    }
}

// The N cells from `from` on.
fn read<const N: usize>(memory: &[u32], from: usize) -> [u32; N]
    requires { from + N ≤ length memory.now }
    ensures { (x : ℕ) → x < N → get_or result x 0 ≡ get_or memory.now (from + x) 0 }
{
    let mut cells = [0; N];
    cells.copy_from_slice(&memory[from..from + N]);
    cells
}

// Keeps in slot k that the goal can meet no set that the family does not cover, below every branch that has the blocking pairs.
pub fn keep(
    memory: &mut [u32],
    k: usize,
    person: usize,
    place: usize,
    levels: usize,
    states: StateSets,
    blocking: Above,
    found: Family,
)
    requires slot_in { SlotIn memory.old k }
    requires person_lt_most_credentials { (person < most_credentials) × ((place < most_credentials) × (levels ≤ most_depth)) }
    ensures { SlotWritten k person place levels states blocking found memory.old memory.new }
{
    let at = SLOT_CELLS * k;
    memory[at] = levels as u32;
    memory[at + 1] = person as u32;
    memory[at + 2] = place as u32;
    write(memory, at + FIRST_STATE, &states.sets.map(u32::from));
    write(memory, at + FIRST_BLOCKING, &blocking.persons);
    write(memory, at + FIRST_WORD, &found.words);
}

// Writes the cells from `from` on.
fn write(memory: &mut [u32], from: usize, cells: &[u32])
    requires { from + length cells.now ≤ length memory.old }
    ensures { Written from (length cells.now) cells.now memory.old memory.new }
{
    memory[from..from + cells.len()].copy_from_slice(cells);
}

// The pairs of both.
pub fn joined(one: Above, other: Above) -> Above
    ensures { Joined one other result }
{
    Above {
        persons: array::from_fn(|r| one.persons[r] | other.persons[r]),
    }
}

// The pairs without that of the principal at `person` and the role at `place`.
pub fn without(all: Above, person: usize, place: usize) -> Above
    requires { (person < most_credentials) × (place < most_credentials) }
    ensures { Spared all person place result }
{
    let others = all.persons[place];
    if !sets::has(others, person) {
        return all;
    }
    let mut persons = all.persons;
    persons[place] = others ^ (1 << person);
    Above { persons }
}
