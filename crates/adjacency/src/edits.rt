// One edit of one row, that of the node at a place: the other rows stay as they are.
// The four share two lines. A closure for the line between would bring its `pre` and `post` into every contract.
ghost use Rattle.std.specs.Prelude.{◌≡◌, ℕ, ◌<◌, ◌≤◌, [], ◌∷◌, ◌++◌, length, slice_index_or, slice_set};
ghost use Rattle.lists.specs.Swap.{swap_removed};
ghost use Rattle.model.specs.Keys.{keys};
ghost use Rattle.rows.specs.Rings.{nth};
ghost use Rattle.rows.specs.HalfEdges.{twin};
ghost use Rattle.halfedges.specs.Cells.{count, standing, named, row_at, put_row};
ghost use Rattle.adjacency.specs.Stages.{rows_of, keys_of};

use crate::adjacency::NodesWithRows;
use keys::nodes::NodeTrait;

impl<'a, 'r, N: NodeTrait> NodesWithRows<'a, 'r, N> {
    // Puts the cell `c`, which stands in no row, at the end of the row of the node at `i`.
    pub(crate) fn enter(&mut self, i: usize, c: u32)
        requires place { i < length self.old.nodes.entries }
        requires within { c < length (keys_of self.old) }
        requires fresh { standing c (rows_of self.old) ≡ 0 }
        requires own { (d : N) → named (keys N.value N.order) d (keys_of self.old) (twin c) ≡ N.value (slice_index_or (rows_of self.old) i (d, [])).0 }
        ensures room { self.new.nodes.room ≡ self.old.nodes.room }
        ensures keys { keys_of self.new ≡ keys_of self.old }
        ensures rows { (d : N) → rows_of self.new ≡ put_row (rows_of self.old) i d (row_at (rows_of self.old) i d ++ c ∷ []) }
    {
        let mut row = self.nodes.value_at(i);
        self.rows.append(&mut row, c);
        self.nodes.set_value(i, row);
    }

    // Takes the cell `c` out of the row of the node at `i`: the last cell goes where it was.
    pub(crate) fn leave(&mut self, i: usize, c: u32)
        requires place { i < length self.old.nodes.entries }
        requires held { (d : N) → 1 ≤ count c (row_at (rows_of self.old) i d) }
        ensures room { self.new.nodes.room ≡ self.old.nodes.room }
        ensures keys { keys_of self.new ≡ keys_of self.old }
        ensures rows { (d : N) (k : ℕ) → k < length (row_at (rows_of self.old) i d) → nth (row_at (rows_of self.old) i d) k ≡ c → rows_of self.new ≡ put_row (rows_of self.old) i d (swap_removed (row_at (rows_of self.old) i d) k) }
    {
        let mut row = self.nodes.value_at(i);
        self.rows.swap_remove(&mut row, c);
        self.nodes.set_value(i, row);
    }

    // Takes the first cell out of the row of the node at `i`.
    pub(crate) fn behead(&mut self, i: usize) -> u32
        requires place { i < length self.old.nodes.entries }
        requires some { (d : N) → 0 < length (row_at (rows_of self.old) i d) }
        ensures room { self.new.nodes.room ≡ self.old.nodes.room }
        ensures keys { keys_of self.new ≡ keys_of self.old }
        ensures first { (d : N) → row_at (rows_of self.old) i d ≡ result ∷ row_at (rows_of self.new) i d }
        ensures rows { (d : N) → rows_of self.new ≡ put_row (rows_of self.old) i d (row_at (rows_of self.new) i d) }
    {
        let mut row = self.nodes.value_at(i);
        let first = self.rows.pop_first(&mut row);
        self.nodes.set_value(i, row);
        first
    }

    // Puts the cell `new`, which stands in no row, where the cell `old` stands in the row of the node at `i`.
    pub(crate) fn rename(&mut self, i: usize, old: u32, new: u32)
        requires place { i < length self.old.nodes.entries }
        requires within { new < length (keys_of self.old) }
        requires fresh { standing new (rows_of self.old) ≡ 0 }
        requires held { (d : N) → 1 ≤ count old (row_at (rows_of self.old) i d) }
        requires own { (d : N) → named (keys N.value N.order) d (keys_of self.old) (twin new) ≡ N.value (slice_index_or (rows_of self.old) i (d, [])).0 }
        ensures room { self.new.nodes.room ≡ self.old.nodes.room }
        ensures keys { keys_of self.new ≡ keys_of self.old }
        ensures rows { (d : N) (k : ℕ) → k < length (row_at (rows_of self.old) i d) → nth (row_at (rows_of self.old) i d) k ≡ old → rows_of self.new ≡ put_row (rows_of self.old) i d (slice_set (row_at (rows_of self.old) i d) k new) }
    {
        let mut row = self.nodes.value_at(i);
        self.rows.replace(&mut row, old, new);
        self.nodes.set_value(i, row);
    }
}
