// What a walk along a row reads.
ghost use Rattle.std.specs.Prelude.{◌≡◌, ◌<◌, length, slice_index_or};
ghost use Rattle.std.specs.List.{slice_get};
ghost use Rattle.model.specs.Keys.{keys};
ghost use Rattle.rows.specs.Walks.{upcoming};
ghost use Rattle.adjacency.specs.Heads.{head_of, row_of};
ghost use Rattle.adjacency.specs.Stages.{Stage, keys_of};

use crate::adjacency::NodesWithRows;
use keys::nodes::NodeTrait;
use rows::asked::Asked;
use rows::cells::{Cell, RowHead};
use rows::walk::Walk;
use table::table::Table;

/// The head of the row of `n` in a table of nodes, where there is such a node.
pub fn head_of<N: NodeTrait>(nodes: &Table<'_, N, RowHead>, n: &N) -> Option<RowHead>
    ensures { result ≡ head_of (keys N.value N.order) (N.value n.now) nodes.now.entries }
{
    let i = nodes.find(n).ok()?;
    Some(nodes.value_at(i))
}

/// The same, and the row of no cells for an absent node.
pub fn row_of<N: NodeTrait>(nodes: &Table<'_, N, RowHead>, n: &N) -> RowHead
    ensures { result ≡ row_of (keys N.value N.order) (N.value n.now) nodes.now.entries }
{
    head_of(nodes, n).unwrap_or(RowHead::empty())
}

impl<'a, 'r, N: NodeTrait> NodesWithRows<'a, 'r, N> {
    /// The table of the nodes, each with the head of its row. Their rows fit one another.
    pub fn nodes(&self) -> &Table<'a, N, RowHead>
        ensures table { result.now ≡ self.now.nodes }
        ensures stage { Stage N.value N.order self.now }
    {
        &self.nodes
    }

    /// The cells of all rows.
    pub fn cells(&self) -> &[Cell<N>]
        ensures { result.now ≡ self.now.cells }
    {
        self.rows.as_slice()
    }

    /// The head of the row of `n`, where there is such a node.
    pub fn head(&self, n: &N) -> Option<RowHead>
        ensures head { result ≡ head_of (keys N.value N.order) (N.value n.now) self.now.nodes.entries }
        ensures stage { Stage N.value N.order self.now }
    {
        head_of(&self.nodes, n)
    }

    /// The same, and the row of no cells for an absent node.
    pub fn row(&self, n: &N) -> RowHead
        ensures row { result ≡ row_of (keys N.value N.order) (N.value n.now) self.now.nodes.entries }
        ensures stage { Stage N.value N.order self.now }
    {
        row_of(&self.nodes, n)
    }

    /// The key of the cell `c`.
    pub fn key(&self, c: u32) -> N
        requires { c < length (keys_of self.now) }
        ensures { (d : N) → result ≡ slice_index_or (keys_of self.now) c d }
    {
        self.rows.key(c)
    }

    /// The cell that `k` cells of the walk come before, of those that the direction shows.
    pub fn nth_cell(&self, asked: Asked<N>, walk: Walk, k: usize) -> Option<u32>
        ensures { (e : N) → result ≡ slice_get (upcoming (keys N.value N.order) e self.now.cells asked.kind asked.direction (N.value asked.node) walk) k }
    {
        self.rows.nth_cell(asked, walk, k)
    }
}
