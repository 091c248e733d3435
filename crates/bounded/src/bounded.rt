ghost use Rattle.std.specs.Prelude.{◌≡◌, ◌+◌, ◌<◌, ◌≤◌, ◌↔◌, ⊤, [], ◌∷◌, ◌++◌, length, slice_set, IsTrue, MatchOption, IsOk, IsErr};
ghost use Rattle.std.specs.Cmp.{on_equiv, on_per};
ghost use Rattle.std.specs.Cmp.Lexicographic.{pointwise, lists_per, lists_equiv};

use crate::full::Full;
use std::alloc::AllocError;

/// A list of at most `N` items in fixed memory: the first `count` of `places`.
#[derive(Debug)]
pub struct Bounded<T, const N: usize> {
    places: [T; N],
    count: usize,
    ghost within: { count ≤ N },
}

impl<T: Copy, const N: usize> Bounded<T, N> {
    ghost use Rattle.bounded.specs.Bounded.{items};

    /// No items. The free places hold `blank`.
    pub fn new(blank: T) -> Self
        ensures { items result ≡ [] }
    {
        Bounded {
            places: [blank; N],
            count: 0,
        }
    }

    /// The items.
    pub fn as_slice(&self) -> &[T]
        ensures value { result.now ≡ items self.now }
        ensures few { length result.now ≤ N }
    {
        &self.places[..self.count]
    }

    /// How many items there are.
    pub fn len(&self) -> usize
        ensures value { result ≡ length (items self.now) }
        ensures few { result ≤ N }
    {
        self.as_slice().len()
    }

    /// Whether there are `N` items.
    pub fn is_full(&self) -> bool
        ensures { IsTrue result ↔ (length (items self.now) ≡ N) }
    {
        self.count == N
    }

    /// Puts an item behind the others, where there is room.
    pub fn push(&mut self, item: T) -> Result<(), Full>
        ensures room { length (items self.old) < N → IsOk result × (items self.new ≡ items self.old ++ item ∷ []) }
        ensures full { length (items self.old) ≡ N → IsErr result × (self.new ≡ self.old) }
    {
        if self.is_full() {
            return Err(Full);
        }
        let end = self.count;
        self.places[end] = item;
        self.count = end + 1;
        Ok(())
    }

    /// Puts some items behind the others, where there is room for all of them.
    pub fn extend(&mut self, more: &[T]) -> Result<(), Full>
        ensures room { length (items self.old) + length more.now ≤ N → IsOk result × (items self.new ≡ items self.old ++ more.now) }
        ensures full { N < length (items self.old) + length more.now → IsErr result × (self.new ≡ self.old) }
    {
        if more.len() > N - self.count {
            return Err(Full);
        }
        let end = self.count + more.len();
        let places = &mut self.places[..];
        places[self.count..end].copy_from_slice(more);
        self.count = end;
        Ok(())
    }

    /// Takes the last item off, where there is one.
    pub fn pop(&mut self) -> Option<T>
        ensures { MatchOption result ((items self.old ≡ []) × (self.new ≡ self.old)) (λ x. items self.old ≡ items self.new ++ x ∷ []) }
    {
        let last = self.count.checked_sub(1)?;
        self.count = last;
        Some(self.places[last])
    }

    /// Replaces the item at a position, where there is one.
    pub fn set(&mut self, position: usize, item: T)
        ensures there { position < length (items self.old) → items self.new ≡ slice_set (items self.old) position item }
        ensures past { length (items self.old) ≤ position → self.new ≡ self.old }
    {
        if position < self.count {
            self.places[position] = item;
        }
    }
}

// By hand: a generic struct with a ghost field has no derived `Clone`.
impl<T: Copy, const N: usize> Clone for Bounded<T, N> {
    ghost is_clone = { λ list copy. copy ≡ list };

    ghost is_infallible = { λ _. ⊤ };

    fn clone(&self) -> Result<Self, AllocError> {
        Ok(*self)
    }
}

impl<T: Copy, const N: usize> Copy for Bounded<T, N> {}

/// The free places are not compared.
impl<T: Copy + PartialEq, const N: usize> PartialEq for Bounded<T, N> {
    ghost use Rattle.bounded.specs.Bounded.{items};

    ghost eq = { λ a b. pointwise T.eq (items a) (items b) };

    ghost laws = { on_per (λ list. items list) (lists_per T.laws) };

    fn eq(&self, other: &Self) -> bool {
        self.as_slice() == other.as_slice()
    }
}

impl<T: Copy + Eq, const N: usize> Eq for Bounded<T, N> {
    ghost use Rattle.bounded.specs.Bounded.{items};

    ghost laws = { on_equiv (λ list. items list) (lists_equiv T.Eq.laws) };
}
