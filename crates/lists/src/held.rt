// Items in an array that has room for N, for the crates above: an answer's octets, packets, the line that `bench` holds, and the
// text that a line is answered with.
ghost use Rattle.std.specs.Prelude.{◌≡◌, ◌≤◌, ⊤};

use std::alloc::AllocError;

pub struct Held<T, const N: usize> {
    items: [T; N],
    len: usize,
    pub ghost fits: { len ≤ N },
}

// By hand, since no struct with a fact derives them at a type parameter.
impl<T: Copy, const N: usize> Copy for Held<T, N> {}

impl<T: Copy, const N: usize> Clone for Held<T, N> {
    ghost is_clone = { λ x y. y ≡ x };

    ghost is_infallible = { λ _. ⊤ };

    fn clone(&self) -> Result<Held<T, N>, AllocError> {
        Ok(*self)
    }
}

impl<T: Copy + Default, const N: usize> Held<T, N> {
    ghost use Rattle.std.specs.Prelude.{◌≡◌, ◌<◌, ◌+◌, ◌++◌, [], ◌∷◌, length, take};
    ghost use Rattle.lists.specs.Held.{held};

    // No items.
    pub fn new() -> Held<T, N>
        ensures { held result ≡ [] }
    {
        Held {
            items: [T::default(); N],
            len: 0,
        }
    }

    // No items, in an array of the caller's: past the items that are put into it, it stays as it was.
    pub fn over(items: [T; N]) -> Held<T, N>
        ensures { held result ≡ [] }
    {
        Held { items, len: 0 }
    }

    // These items.
    pub fn from_slice(items: &[T]) -> Held<T, N>
        requires { length items.now ≤ N }
        ensures { held result ≡ items.now }
    {
        let mut held = Held::new();
        held.extend(items);
        held
    }

    // Lets go of the items.
    pub fn clear(&mut self)
        ensures { held self.new ≡ [] }
    {
        self.len = 0;
    }

    // One item more, which is the last.
    pub fn push(&mut self, item: T)
        requires { length (held self.old) < N }
        ensures { held self.new ≡ held self.old ++ (item ∷ []) }
    {
        self.items[self.len] = item;
        self.len += 1;
    }

    // These items behind those that it holds.
    pub fn extend(&mut self, items: &[T])
        requires { length (held self.old) + length items.now ≤ N }
        ensures { held self.new ≡ held self.old ++ items.now }
    {
        let end = self.len + items.len();
        let places = &mut self.items[..];
        places[self.len..end].copy_from_slice(items);
        self.len = end;
    }

    // How many they are.
    pub fn len(&self) -> usize
        ensures { result ≡ length (held self.now) }
    {
        self.as_slice().len()
    }

    // The items that it holds.
    pub fn as_slice(&self) -> &[T]
        ensures { result.now ≡ held self.now }
    {
        &self.items[..self.len]
    }

    // The array with the items at its front.
    pub fn into_array(self) -> [T; N]
        ensures { take (length (held self)) result ≡ held self }
    {
        let Held { items, .. } = self;
        items
    }
}
