// What can be done with a list in an array.
ghost use Rattle.std.specs.Prelude.{◌≡◌, ◌<◌, ◌≤◌, length, replicate, slice_set, ◌==◌};
ghost use Rattle.nets.specs.FixedVecs.{listed, pushed};

use super::FixedVec;

impl<T: Copy, const N: usize> FixedVec<T, N> {
    // So many times an item.
    pub(crate) fn filled(item: T, count: usize) -> FixedVec<T, N>
        requires { count ≤ N }
        ensures { listed result ≡ replicate count item }
    {
        FixedVec {
            items: [item; N],
            count,
        }
    }

    // How many items there are.
    pub fn len(&self) -> usize
        ensures count { result ≡ length (listed self.now) }
        ensures few { result ≤ N }
    {
        self.as_slice().len()
    }

    // The items in order.
    pub fn as_slice(&self) -> &[T]
        ensures items { result.now ≡ listed self.now }
        ensures few { length result.now ≤ N }
    {
        &self.items[..self.count]
    }

    // Whether there is no room for one more.
    pub fn is_full(&self) -> bool
        ensures answer { result ≡ (length (listed self.now) == N) }
        ensures few { length (listed self.now) ≤ N }
    {
        self.count == N
    }

    // One item more; nothing changes where the list is full.
    pub(crate) fn push(&mut self, item: T)
        ensures { listed self.new ≡ pushed N (listed self.old) item }
    {
        if self.count < N {
            self.items[self.count] = item;
            self.count += 1;
        }
    }

    // Puts an item in the place of the one at `index`; nothing changes where there is none.
    pub(crate) fn set(&mut self, index: usize, item: T)
        ensures { listed self.new ≡ slice_set (listed self.old) index item }
    {
        if index < self.count {
            self.items[index] = item;
        }
    }
}
