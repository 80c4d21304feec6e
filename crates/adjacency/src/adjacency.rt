ghost use Rattle.std.specs.Prelude.{◌≡◌, ◌/◌, min, [], length, take};
ghost use Rattle.table.specs.Tables.{sought};
ghost use Rattle.adjacency.specs.Stages.{Stage, keys_of};

use keys::nodes::NodeTrait;
use rows::cells::{Cell, RowHead};
use rows::memory::Rows;
use std::marker::Model;
use table::slot::Slot;
use table::table::{Table, Vacancy};

/// The nodes of a map, each with the cells of its row, over two lent memories.
#[derive(Drop)]
pub struct NodesWithRows<'a, 'r, N: NodeTrait> {
    pub(crate) nodes: Table<'a, N, RowHead>,
    pub(crate) rows: Rows<'r, N>,
}

/// The nodes and their rows over memories that are lent for one time.
pub type Adjacency<'a, N> = NodesWithRows<'a, 'a, N>;

// Clauses see the table of the nodes, and the cells of all rows.
impl<'a, 'r, N: NodeTrait> Model for NodesWithRows<'a, 'r, N> {
    ghost use Rattle.adjacency.specs.Stages.{NodeRows, Stage};

    ghost Value = { NodeRows N };

    ghost view = { λ s. record { nodes = s.nodes; cells = s.rows } };

    ghost invariant = { λ s. Stage N.value N.order (record { nodes = s.nodes; cells = s.rows }) };
}

impl<'a, 'r, N: NodeTrait> NodesWithRows<'a, 'r, N> {
    /// No nodes, over memories of any length; what they hold does not count.
    pub fn new(nodes: &'a mut [Slot<N, RowHead>], cells: &'r mut [Cell<N>]) -> Self
        ensures entries { result.nodes.entries ≡ [] }
        ensures room { result.nodes.room ≡ min (length nodes.old) 65535 }
        ensures cells { result.cells ≡ take 131070 cells.old }
    {
        NodesWithRows {
            nodes: Table::new(nodes),
            rows: Rows::new(cells),
        }
    }

    /// The nodes of a table, with their rows in the cells, where these fit one another.
    pub fn from_parts(nodes: Table<'a, N, RowHead>, rows: Rows<'r, N>) -> Self
        requires sound { Stage N.value N.order (record { nodes = nodes; cells = rows }) }
        ensures { result ≡ record { nodes = nodes.entry; cells = rows.entry } }
    {
        NodesWithRows { nodes, rows }
    }

    /// The table of the nodes, and the cells of all rows. They fit one another.
    pub fn into_parts(self) -> (Table<'a, N, RowHead>, Rows<'r, N>)
        ensures nodes { result.0 ≡ self.entry.nodes }
        ensures cells { result.1 ≡ self.entry.cells }
        ensures stage { Stage N.value N.order self.entry }
    {
        (self.nodes, self.rows)
    }

    /// How many nodes there are. Their rows fit one another.
    pub fn len(&self) -> usize
        ensures count { result ≡ length self.now.nodes.entries }
        ensures stage { Stage N.value N.order self.now }
    {
        self.nodes.len()
    }

    /// How many nodes there is room for.
    pub fn room(&self) -> usize
        ensures { result ≡ self.now.nodes.room }
    {
        self.nodes.capacity()
    }

    /// How many links there are cells for.
    pub fn link_room(&self) -> usize
        ensures { result ≡ length (keys_of self.now) / 2 }
    {
        self.rows.room()
    }

    /// The place of the node of `n`'s value, or where such a node would go.
    pub fn find(&self, n: &N) -> Result<usize, Vacancy>
        ensures found { result ≡ sought N.order N.value N.hashed self.now.nodes.room self.now.nodes.entries n.now }
        ensures stage { Stage N.value N.order self.now }
    {
        self.nodes.find(n)
    }
}
