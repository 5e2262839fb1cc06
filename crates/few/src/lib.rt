// A list of few items, in fixed memory: an array with room for N of them and how many there are. That there are no more than N is
// part of the type, so no contract has to say it. specs/Listed.antt says which list it is; proofs/Listing.antt has its laws.
#![tactic(auto, unfolding(crate::specs::Listed::listed))]

ghost use Rattle.std.specs.Prelude.{◌≡◌, ◌≤◌, ⊤, length};

use std::alloc::AllocError;

#[derive(Copy)]
pub struct Few<T, const N: usize> {
    len: usize,
    items: [T; N],
    pub ghost inside: { len ≤ N },
    pub ghost room: { length items ≡ N },
}

impl<T: Copy, const N: usize> Clone for Few<T, N> {
    ghost is_clone = { λ one other. other ≡ one };

    ghost is_infallible = { λ _. ⊤ };

    fn clone(&self) -> Result<Self, AllocError> {
        Ok(*self)
    }
}

impl<T: Copy, const N: usize> Few<T, N> {
    ghost use Rattle.std.specs.Prelude.{◌<◌, [], ◌∷◌, ◌++◌};
    ghost use Rattle.few.specs.Listed.{listed};

    // No item. What fills the room is in no list.
    pub fn none(filler: T) -> Self
        ensures { listed result ≡ [] }
    {
        Few {
            len: 0,
            items: [filler; N],
        }
    }

    // One item.
    pub fn of(item: T) -> Self
        requires { 0 < N }
        ensures { listed result ≡ item ∷ [] }
    {
        Few {
            len: 1,
            items: [item; N],
        }
    }

    // One item more, at the end.
    pub fn push(&mut self, item: T)
        requires { length (listed self.old) < N }
        ensures { listed self.new ≡ listed self.old ++ item ∷ [] }
    {
        self.items[self.len] = item;
        self.len += 1;
    }

    // The same of a list by value.
    pub fn with(self, item: T) -> Self
        requires { length (listed self) < N }
        ensures { listed result ≡ listed self ++ item ∷ [] }
    {
        let mut more = self;
        more.push(item);
        more
    }

    pub fn len(&self) -> usize
        ensures { result ≡ length (listed self.now) }
    {
        self.len
    }

    // The items, in order.
    pub fn as_slice(&self) -> &[T]
        ensures { result.now ≡ listed self.now }
    {
        &self.items[..self.len]
    }
}
