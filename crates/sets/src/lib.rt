// Sets as numbers, and the tests that every definition is made of. Member i counts 2^i: a state s counts 2^s, automaton k counts
// 2^(k-1), credential i counts 2^(i-1). specs/Sets.antt says what being a member means; proofs/Members.antt has its laws.
#![tactic(auto)]

ghost use Rattle.std.specs.Prelude.{◌≡◌, ℕ, ◌^◌, ◌<◌, ◌≤◌, Bool};
ghost use Rattle.std.specs.Int.Bits.{bit_or};
ghost use Rattle.std.proofs.Common.{rules};
ghost use Rattle.sets.specs.Sets.{in_set, set_of};

// The widths of sets do not follow the width of a table's numbers: there are at most 16 states, 8 automata and 20 credentials.
pub type StateSet = u16;

pub type AutomatonSet = u16;

pub type CredentialSet = u32;

// A number of some width that a set can be. What is asked of a set is asked once, of its number at the greatest width.
pub trait Width: Copy {
    // How many members there can be.
    ghost room: { ℕ };

    ghost number: { Self → ℕ };

    fn wide(self) -> u32
        ensures same { result ≡ number self }
        ensures inside { result < 2 ^ room };

    fn narrow(bits: u32) -> Self
        requires { bits < 2 ^ room }
        ensures { number result ≡ bits };

    ghost at_most_wide: { room ≤ 32 };
}

impl Width for u16 {
    ghost room = { 16 };

    ghost number = { λ x. x };

    ghost at_most_wide = { Prim.search rules };

    fn wide(self) -> u32 {
        self as u32
    }

    fn narrow(bits: u32) -> u16 {
        bits as u16
    }
}

impl Width for u32 {
    ghost room = { 32 };

    ghost number = { λ x. x };

    ghost at_most_wide = { Prim.search rules };

    fn wide(self) -> u32 {
        self
    }

    fn narrow(bits: u32) -> u32 {
        bits
    }
}

// Whether i is in a set, and the set with it.
pub fn has<S: Width>(set: S, i: usize) -> bool
    requires { i < S.room }
    ensures { result ≡ in_set (S.number set) i }
{
    (set.wide() >> i) % 2 == 1
}

pub fn with<S: Width>(set: S, i: usize) -> S
    requires { i < S.room }
    ensures { S.number result ≡ bit_or (S.number set) (2 ^ i) }
{
    S::narrow(set.wide() | (1 << i))
}

// The members below n that pass a test, as a set.
pub fn those<S: Width, F: Fn(usize) -> bool>(n: usize, test: F) -> S
    requires room { n ≤ S.room }
    requires callable { (k : ℕ) → k < n → F.pre test k }
    ensures { (p : ℕ → Bool) → ((k : ℕ) → k < n → (told : Bool) → F.post test k told → told ≡ p k) → S.number result ≡ set_of p n }
{
    let mut set = S::narrow(0);
    for k in 0..n {
        if test(k) {
            set = with(set, k);
        }
    }
    set
}
