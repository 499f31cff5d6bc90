//! Where shelves begin.
ghost use Rattle.std.specs.List.{All};
ghost use Rattle.std.specs.Prelude.{◌≡◌, ◌+◌, ◌-◌, ◌<◌, ◌≤◌, ◌^◌, ◌++◌, length, map, take, drop, slice_index, vec_len};

// The last of rising numbers that does not exceed an index, of which the first does not: O(log n).
pub(crate) fn shelf_of(starts: &[usize], index: usize) -> usize
    requires some { 0 < length starts.now }
    requires first { slice_index starts.now 0 ≤ index }
    ensures within { result < length starts.now }
    ensures from { slice_index starts.now result ≤ index }
    ensures until { result + 1 < length starts.now → index < slice_index starts.now (result + 1) }
{
    let mut low = 0;
    let mut high = starts.len();
    'halve: while high - low > 1 {
        let middle = low + (high - low) / 2;
        if starts[middle] <= index {
            low = middle;
        } else {
            high = middle;
        }
    }
    low
}

// Adds one to each number.
fn add_each(starts: &mut [usize])
    requires { All (λ n. n + 1 < 2 ^ 64) starts.old }
    ensures { starts.new ≡ map (λ n. n + 1) starts.old }
{
    for start in starts.iter_mut() {
        *start += 1;
    }
}

// Takes one from each number.
fn subtract_each(starts: &mut [usize])
    requires { All (λ n. 0 < n) starts.old }
    ensures { starts.new ≡ map (λ n. n - 1) starts.old }
{
    for start in starts.iter_mut() {
        *start -= 1;
    }
}

// Adds one to each number from a place on.
pub(crate) fn add_from(starts: &mut Vec<usize>, from: usize)
    requires within { from ≤ vec_len starts.old }
    requires small { All (λ n. n + 1 < 2 ^ 64) (drop from starts.old.items) }
    ensures { starts.new.items ≡ take from starts.old.items ++ map (λ n. n + 1) (drop from starts.old.items) }
{
    add_each(&mut starts[from..]);
}

// Takes one from each number from a place on.
pub(crate) fn subtract_from(starts: &mut Vec<usize>, from: usize)
    requires within { from ≤ vec_len starts.old }
    requires some { All (λ n. 0 < n) (drop from starts.old.items) }
    ensures { starts.new.items ≡ take from starts.old.items ++ map (λ n. n - 1) (drop from starts.old.items) }
{
    subtract_each(&mut starts[from..]);
}
