ghost use Rattle.std.specs.Prelude.{◌≡◌, ℕ, ◌-◌, ◌<◌, ◌≤◌, [], ◌∷◌, ◌++◌, ◌≢◌, length, take, slice_set};
ghost use Rattle.lists.specs.Swap.{swap_removed};
ghost use Rattle.rows.specs.Rings.{none, nth, Apart, Holds};
ghost use Rattle.rows.specs.Links.{Linked, listed, Joined, Kept};

use crate::cells::{Cell, NONE, RowHead};
use crate::memory::cell;

// Lets the cell `b` come after the cell `a`. NONE stands before the first cell and after the last.
fn join<N: Copy>(cells: &mut [Cell<N>], row: &mut RowHead, a: u32, b: u32)
    requires before { (a ≢ none) → a < length cells.old }
    requires after { (b ≢ none) → b < length cells.old }
    ensures { Joined cells.old row.old cells.new row.new a b }
{
    if a == NONE {
        row.first = b;
    } else {
        cells[a as usize].next = b;
    }
    if b == NONE {
        row.last = a;
    } else {
        cells[b as usize].prev = a;
    }
}

/// Puts the cell `c`, which the row has not, at the row's end.
pub fn append<N: Copy>(cells: &mut [Cell<N>], row: &mut RowHead, c: u32)
    requires small { length cells.old ≤ none }
    requires linked { Linked cells.old row.old }
    requires within { c < length cells.old }
    requires fresh { Apart c (listed cells.old row.old) }
    requires room { row.old.len < none }
    ensures linked { Linked cells.new row.new }
    ensures list { listed cells.new row.new ≡ listed cells.old row.old ++ c ∷ [] }
    ensures kept { Kept cells.old cells.new (c ∷ listed cells.old row.old) }
{
    join(cells, row, row.last, c);
    join(cells, row, c, NONE);
    row.len += 1;
}

/// Takes the last cell off the row.
pub fn pop_last<N: Copy>(cells: &mut [Cell<N>], row: &mut RowHead) -> u32
    requires small { length cells.old ≤ none }
    requires linked { Linked cells.old row.old }
    requires some { 0 < row.old.len }
    ensures linked { Linked cells.new row.new }
    ensures list { listed cells.new row.new ≡ take (row.old.len - 1) (listed cells.old row.old) }
    ensures popped { result ≡ nth (listed cells.old row.old) (row.old.len - 1) }
    ensures apart { Apart result (listed cells.new row.new) }
    ensures kept { Kept cells.old cells.new (listed cells.old row.old) }
{
    let last = row.last;
    let prev = cell(cells, last).prev;
    join(cells, row, prev, NONE);
    row.len -= 1;
    last
}

/// Takes the first cell off the row.
pub fn pop_first<N: Copy>(cells: &mut [Cell<N>], row: &mut RowHead) -> u32
    requires small { length cells.old ≤ none }
    requires linked { Linked cells.old row.old }
    requires some { 0 < row.old.len }
    ensures linked { Linked cells.new row.new }
    ensures rest { listed cells.old row.old ≡ result ∷ listed cells.new row.new }
    ensures kept { Kept cells.old cells.new (listed cells.old row.old) }
{
    let first = row.first;
    let next = cell(cells, first).next;
    join(cells, row, NONE, next);
    row.len -= 1;
    first
}

/// Puts the cell `new`, which the row has not, where the cell `old` is.
pub fn replace<N: Copy>(cells: &mut [Cell<N>], row: &mut RowHead, old: u32, new: u32)
    requires small { length cells.old ≤ none }
    requires linked { Linked cells.old row.old }
    requires within { new < length cells.old }
    requires fresh { Apart new (listed cells.old row.old) }
    requires held { Holds old (listed cells.old row.old) }
    ensures linked { Linked cells.new row.new }
    ensures len { row.new.len ≡ row.old.len }
    ensures list { (i : ℕ) → i < row.old.len → nth (listed cells.old row.old) i ≡ old → listed cells.new row.new ≡ slice_set (listed cells.old row.old) i new }
    ensures kept { Kept cells.old cells.new (new ∷ listed cells.old row.old) }
{
    let Cell { prev, next, .. } = cell(cells, old);
    join(cells, row, prev, new);
    join(cells, row, new, next);
}

/// Takes the cell `c` out of the row: the last cell goes where it was.
pub fn swap_remove<N: Copy>(cells: &mut [Cell<N>], row: &mut RowHead, c: u32)
    requires small { length cells.old ≤ none }
    requires linked { Linked cells.old row.old }
    requires held { Holds c (listed cells.old row.old) }
    ensures linked { Linked cells.new row.new }
    ensures list { (i : ℕ) → i < row.old.len → nth (listed cells.old row.old) i ≡ c → listed cells.new row.new ≡ swap_removed (listed cells.old row.old) i }
    ensures kept { Kept cells.old cells.new (listed cells.old row.old) }
{
    let last = pop_last(cells, row);
    if last != c {
        replace(cells, row, c, last);
    }
}
