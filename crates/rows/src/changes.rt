ghost use Rattle.std.specs.Prelude.{◌≡◌, ℕ, ◌-◌, ◌<◌, [], ◌∷◌, ◌++◌, length, take, slice_set};
ghost use Rattle.lists.specs.Swap.{swap_removed};
ghost use Rattle.rows.specs.Rings.{none, nth, Apart, Holds};
ghost use Rattle.rows.specs.Links.{Linked, listed, Kept};

use crate::cells::RowHead;
use crate::memory::Rows;
use crate::row::{append, pop_first, pop_last, replace, swap_remove};

impl<'a, N: Copy> Rows<'a, N> {
    /// Puts the cell `c`, which the row has not, at the row's end.
    pub fn append(&mut self, row: &mut RowHead, c: u32)
        requires linked { Linked self.old row.old }
        requires within { c < length self.old }
        requires fresh { Apart c (listed self.old row.old) }
        requires room { row.old.len < none }
        ensures linked { Linked self.new row.new }
        ensures list { listed self.new row.new ≡ listed self.old row.old ++ c ∷ [] }
        ensures kept { Kept self.old self.new (c ∷ listed self.old row.old) }
    {
        append(self.cells, row, c);
    }

    /// Takes the last cell off the row.
    pub fn pop_last(&mut self, row: &mut RowHead) -> u32
        requires linked { Linked self.old row.old }
        requires some { 0 < row.old.len }
        ensures linked { Linked self.new row.new }
        ensures list { listed self.new row.new ≡ take (row.old.len - 1) (listed self.old row.old) }
        ensures popped { result ≡ nth (listed self.old row.old) (row.old.len - 1) }
        ensures apart { Apart result (listed self.new row.new) }
        ensures kept { Kept self.old self.new (listed self.old row.old) }
    {
        pop_last(self.cells, row)
    }

    /// Takes the first cell off the row.
    pub fn pop_first(&mut self, row: &mut RowHead) -> u32
        requires linked { Linked self.old row.old }
        requires some { 0 < row.old.len }
        ensures linked { Linked self.new row.new }
        ensures rest { listed self.old row.old ≡ result ∷ listed self.new row.new }
        ensures kept { Kept self.old self.new (listed self.old row.old) }
    {
        pop_first(self.cells, row)
    }

    /// Puts the cell `new`, which the row has not, where the cell `old` is.
    pub fn replace(&mut self, row: &mut RowHead, old: u32, new: u32)
        requires linked { Linked self.old row.old }
        requires within { new < length self.old }
        requires fresh { Apart new (listed self.old row.old) }
        requires held { Holds old (listed self.old row.old) }
        ensures linked { Linked self.new row.new }
        ensures len { row.new.len ≡ row.old.len }
        ensures list { (i : ℕ) → i < row.old.len → nth (listed self.old row.old) i ≡ old → listed self.new row.new ≡ slice_set (listed self.old row.old) i new }
        ensures kept { Kept self.old self.new (new ∷ listed self.old row.old) }
    {
        replace(self.cells, row, old, new);
    }

    /// Takes the cell `c` out of the row: the last cell goes where it was.
    pub fn swap_remove(&mut self, row: &mut RowHead, c: u32)
        requires linked { Linked self.old row.old }
        requires held { Holds c (listed self.old row.old) }
        ensures linked { Linked self.new row.new }
        ensures list { (i : ℕ) → i < row.old.len → nth (listed self.old row.old) i ≡ c → listed self.new row.new ≡ swap_removed (listed self.old row.old) i }
        ensures kept { Kept self.old self.new (listed self.old row.old) }
    {
        swap_remove(self.cells, row, c);
    }
}
