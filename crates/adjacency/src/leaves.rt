// The cells of a link are found, and taken out of the rows of its two ends.
ghost use Rattle.std.specs.Prelude.{◌≡◌, ℕ, ◌<◌, ◌≤◌, length, ◌≢◌};
ghost use Rattle.lists.specs.Swap.{swap_removed};
ghost use Rattle.model.specs.Keys.{keys};
ghost use Rattle.rows.specs.HalfEdges.{twin};
ghost use Rattle.rows.specs.Rings.{nth};
ghost use Rattle.halfedges.specs.Cells.{count, row_at, put_row};
ghost use Rattle.adjacency.specs.Looks.{Looked, PartedTwice};
ghost use Rattle.adjacency.specs.Stages.{rows_of, keys_of};

use crate::adjacency::NodesWithRows;
use keys::kinds::{Direction, Kind};
use keys::nodes::NodeTrait;
use rows::asked::Asked;

// The other cell of the same link.
fn twin_of(c: u32) -> u32
    ensures { result ≡ twin c }
{
    c ^ 1
}

impl<'a, 'r, N: NodeTrait> NodesWithRows<'a, 'r, N> {
    /// The cell of the link from `a` to `b` in the row of `a`, which is the one at `i`; that of `b` is at `j`. Of the
    /// two rows the shorter is searched.
    pub fn entry_of(&self, kind: Kind, i: usize, j: usize, a: N, b: N) -> Option<u32>
        requires from { i < length self.now.nodes.entries }
        requires to { j < length self.now.nodes.entries }
        ensures { (d : N) → Looked (keys N.value N.order) d kind (keys_of self.now) (rows_of self.now) i j (N.value a) (N.value b) result }
    {
        let from = self.nodes.value_at(i);
        let to = self.nodes.value_at(j);
        if i == j || from.len() <= to.len() {
            let outward = Asked {
                kind,
                direction: Direction::Outgoing,
                node: b,
            };
            return self.rows.search(from, outward);
        }
        let inward = Asked {
            kind,
            direction: Direction::Incoming,
            node: a,
        };
        self.rows.search(to, inward).map(twin_of)
    }

    /// Takes the cell `c` out of the row at `i`, and its twin out of the row at `j`, unless the two are one row.
    pub fn sever(&mut self, i: usize, j: usize, c: u32)
        requires from { i < length self.old.nodes.entries }
        requires to { j < length self.old.nodes.entries }
        requires held { (d : N) → 1 ≤ count c (row_at (rows_of self.old) i d) }
        requires other { (i ≢ j) → (d : N) → 1 ≤ count (twin c) (row_at (rows_of self.old) j d) }
        ensures room { self.new.nodes.room ≡ self.old.nodes.room }
        ensures keys { keys_of self.new ≡ keys_of self.old }
        ensures one { i ≡ j → (d : N) (k : ℕ) → k < length (row_at (rows_of self.old) i d) → nth (row_at (rows_of self.old) i d) k ≡ c → rows_of self.new ≡ put_row (rows_of self.old) i d (swap_removed (row_at (rows_of self.old) i d) k) }
        ensures two { (i ≢ j) → (d : N) (k : ℕ) → k < length (row_at (rows_of self.old) i d) → nth (row_at (rows_of self.old) i d) k ≡ c → PartedTwice d (rows_of self.old) (rows_of self.new) i j c k }
    {
        self.leave(i, c);
        if i == j {
            return;
        }
        self.leave(j, twin_of(c));
    }
}
