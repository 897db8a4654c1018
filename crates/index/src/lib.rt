// An ordered index of keys: numbers that stand for the pairs so far, in the order of their keys. It takes the place of the
// source's set of keys, which a search of all earlier keys would make quadratic. How a number leads to its key is up to the user.
#![tactic(auto)]

ghost use Rattle.std.specs.Prelude.{◌≡◌, ℕ, ◌≤◌, ◌<◌, length, get_or};
ghost use Rattle.index.specs.Index.{Copied, Placed, Shifted};

use std::cmp::Ordering;

// Looks a key up, to which `order` compares the key of a number: where it stands, or where it belongs. Not `binary_search_by` of std:
// it asks for an `order` that any number may be handed to (`IsAlwaysCallable`), and one that leads to no key has none to compare; nor does
// it begin with the last one.
pub fn search<F: Fn(u16) -> Ordering>(index: &[u16], order: F) -> Result<usize, usize>
    requires { (r : ℕ) → r < length index.now → F.pre order (get_or index.now r 0) }
    ensures { Placed (F.post order) index.now result }
{
    let mut lo = 0;
    let mut hi = index.len();
    // The last one first, so that keys that ascend take one comparison each.
    let mut mid = hi.saturating_sub(1);
    // Halves aren't counted, so no `for` is plainer.
    while lo < hi {
        match order(index[mid]) {
            Ordering::Less => lo = mid + 1,
            Ordering::Equal => return Ok(mid),
            Ordering::Greater => hi = mid,
        }
        mid = lo + (hi - lo) / 2;
    }
    Err(lo)
}

// Puts x at p, and moves the numbers from p to n up. The index has room behind n: a `Vec` would need a heap.
pub fn insert(index: &mut [u16], p: usize, n: usize, x: u16)
    requires { (p ≤ n) × (n < length index.old) }
    ensures { Shifted index.old index.new p n x }
{
    index.copy_within(p..n, p + 1);
    index[p] = x;
}

// Copies an index into a larger one: one by one, as `wire::writing` copies bytes.
pub fn copy(index: &[u16], larger: &mut [u16])
    requires { length index.now ≤ length larger.old }
    ensures { Copied index.now larger.new }
{
    for i in 0..index.len() {
        larger[i] = index[i];
    }
}
