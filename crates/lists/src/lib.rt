// What crates do with lent lists: a number read, one copied into another, an element put in, one cut into runs, and the nodes that one names marked.
#![tactic(auto)]

ghost use Rattle.std.specs.Prelude.{◌≡◌, ◌&&◌, ◌+◌, length, get_or, leb, ltb};
ghost use Rattle.lists.specs.Regions.{copied, insert_at};

mod marks;
mod runs;

pub use marks::mark_named;
pub use runs::Runs;

// Number i of a list, 0 where there is none.
pub fn number_at(list: &[u32], i: usize) -> u32
    ensures { result ≡ get_or list.now i 0 }
{
    list.get(i).copied().unwrap_or(0)
}

// Copies src into dst, from `at` on. Answers whether it has its place there; nothing changes where not.
// The place stands beside the list: lists are fixed memory, filled in part. A bool, as a copy without a place is no fault of its own: the caller
// knows what it refuses then, or that there is a place.
pub fn copy_at<T: Copy>(dst: &mut [T], at: usize, src: &[T]) -> bool
    ensures fits { result ≡ leb (at + length src.now) (length dst.old) }
    ensures after { dst.new ≡ copied dst.old at src.now }
{
    if dst.len() < src.len() || dst.len() - src.len() < at {
        return false;
    }
    // No `copy_from_slice`: it calls memmove, as a rotation does.
    for i in 0..src.len() {
        dst[at + i] = src[i];
    }
    true
}

// Puts x into the first n entries at k; those from k on move up. Answers whether k and n have their place; nothing changes where not.
// How many entries there are stands beside the list: fixed memory, filled in part, as above.
pub fn insert_at<T: Copy>(xs: &mut [T], n: usize, k: usize, x: T) -> bool
    ensures fits { result ≡ (leb k n && ltb n (length xs.old)) }
    ensures after { xs.new ≡ insert_at xs.old n k x }
{
    if n < k || xs.len() <= n {
        return false;
    }
    // No rotation: it calls memmove, which the C archive asks of nobody.
    let mut i = n;
    while i > k {
        xs[i] = xs[i - 1];
        i -= 1;
    }
    xs[i] = x;
    true
}
