// The cells of the last link become those of a link that has gone.
ghost use Rattle.std.specs.Prelude.{◌≡◌, ℕ, ◌+◌, ◌*◌, ◌<◌, ◌≤◌, length, ◌==◌, slice_index_or};
ghost use Rattle.model.specs.Keys.{keys};
ghost use Rattle.model.specs.Lists.{bit};
ghost use Rattle.rows.specs.HalfEdges.{side, twin};
ghost use Rattle.halfedges.specs.Cells.{standing, named, noded, moved, Whole, Off};
ghost use Rattle.adjacency.specs.Stages.{rows_of, keys_of};

use crate::adjacency::NodesWithRows;
use keys::nodes::{NodeTrait, same};

impl<'a, 'r, N: NodeTrait> NodesWithRows<'a, 'r, N> {
    // Puts the cell `new`, which stands in no row and has the entry of `old`, where `old` stands in the row of `n`.
    fn shift(&mut self, n: N, old: u32, new: u32)
        requires held { standing old (rows_of self.old) ≡ 1 }
        requires fresh { standing new (rows_of self.old) ≡ 0 }
        requires within { new < length (keys_of self.old) }
        requires own { (d : N) → named (keys N.value N.order) d (keys_of self.old) (twin old) ≡ N.value n }
        requires owner { (d : N) → named (keys N.value N.order) d (keys_of self.old) (twin new) ≡ N.value n }
        requires entry { (d : N) → slice_index_or (keys_of self.old) new d ≡ slice_index_or (keys_of self.old) old d }
        requires side { side new ≡ side old }
        ensures room { self.new.nodes.room ≡ self.old.nodes.room }
        ensures keys { keys_of self.new ≡ keys_of self.old }
        ensures standing { (x : ℕ) → standing x (rows_of self.new) + bit (x == old) ≡ standing x (rows_of self.old) + bit (x == new) }
        ensures told { noded (keys_of self.old) (rows_of self.new) ≡ noded (keys_of self.old) (rows_of self.old) }
    {
        if let Ok(i) = self.find(&n) {
            self.rename(i, old, new);
        }
    }

    /// Gives the cells of the last link `l` to the link `g`, whose own stand in no row. Every row is told as before.
    pub fn settle(&mut self, g: usize, l: usize)
        requires off { (d : N) → Off (keys N.value N.order) d (keys_of self.old) g (l + 1) (rows_of self.old) }
        requires order { g ≤ l }
        requires within { 2 * l + 1 < length (keys_of self.old) }
        ensures room { self.new.nodes.room ≡ self.old.nodes.room }
        ensures keys { (d : N) → keys_of self.new ≡ moved (keys_of self.old) d g l }
        ensures whole { (d : N) → Whole (keys N.value N.order) d (keys_of self.new) l (rows_of self.new) }
        ensures told { noded (keys_of self.new) (rows_of self.new) ≡ noded (keys_of self.old) (rows_of self.old) }
    {
        if g == l {
            return;
        }
        let first = self.rows.key((2 * l) as u32);
        let second = self.rows.key((2 * l + 1) as u32);
        self.write_link(g, second, first);
        self.shift(second, (2 * l) as u32, (2 * g) as u32);
        if same(&second, &first) {
            return;
        }
        self.shift(first, (2 * l + 1) as u32, (2 * g + 1) as u32);
    }
}
