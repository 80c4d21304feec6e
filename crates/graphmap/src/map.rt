ghost use Rattle.std.specs.Prelude.{◌≡◌, ◌/◌, min, length};
ghost use Rattle.keys.specs.Kinds.{directed};
ghost use Rattle.model.specs.Maps.{fresh};
ghost use Rattle.model.specs.Questions.{rooms};
ghost use Rattle.adjacency.specs.Stages.{Stage};
ghost use Rattle.graphmap.specs.Parts.{state_of, Sound};

use adjacency::adjacency::Adjacency;
use keys::kinds::Kind;
use keys::nodes::NodeTrait;
use rows::cells::{Cell, RowHead};
use std::marker::Model;
use table::slot::Slot;
use table::table::Table;

/// A graph whose nodes are its keys, over three lent memories: one for the nodes, one for the links, and one for the
/// rows, two cells for each link.
#[derive(Drop)]
pub struct GraphMap<'a, N: NodeTrait, E: Copy> {
    pub(crate) kind: Kind,
    pub(crate) adjacency: Adjacency<'a, N>,
    pub(crate) links: Table<'a, (N, N), E>,
}

// Clauses see the parts, and `state_of` them as plain lists.
impl<'a, N: NodeTrait, E: Copy> Model for GraphMap<'a, N, E> {
    ghost use Rattle.graphmap.specs.Parts.{Parts, Sound};

    ghost Value = { Parts N E };

    ghost view = { λ m. record { kind = m.kind; rows = m.adjacency; links = m.links } };

    ghost invariant = { λ m. Sound N.value N.order (record { kind = m.kind; rows = m.adjacency; links = m.links }) };
}

impl<'a, N: NodeTrait, E: Copy> GraphMap<'a, N, E> {
    /// A map of no nodes and no links, over memories of any lengths; what they hold does not count.
    pub fn new(
        kind: Kind,
        nodes: &'a mut [Slot<N, RowHead>],
        links: &'a mut [Slot<(N, N), E>],
        cells: &'a mut [Cell<N>],
    ) -> Self
        ensures { state_of result ≡ fresh kind (min (length nodes.old) 65535) (min (min (length links.old) 65535) (min (length cells.old) 131070 / 2)) }
    {
        GraphMap {
            kind,
            adjacency: Adjacency::new(nodes, cells),
            links: Table::new(links),
        }
    }

    /// The table of the nodes, each with the head of its row.
    pub fn nodes(&self) -> &Table<'a, N, RowHead>
        ensures { result.now ≡ self.now.rows.nodes }
    {
        self.adjacency.nodes()
    }

    /// The table of the links.
    pub fn links(&self) -> &Table<'a, (N, N), E>
        ensures { result.now ≡ self.now.links }
    {
        &self.links
    }

    /// The cells of all rows.
    pub fn cells(&self) -> &[Cell<N>]
        ensures { result.now ≡ self.now.rows.cells }
    {
        self.adjacency.cells()
    }

    /// How many nodes there are. Their rows fit one another.
    pub fn node_count(&self) -> usize
        ensures count { result ≡ length (state_of self.now).nodes }
        ensures stage { Stage N.value N.order self.now.rows }
    {
        self.adjacency.len()
    }

    /// How many links there are. Each is under the key of its ends, and has its entries in their rows.
    pub fn edge_count(&self) -> usize
        ensures count { result ≡ length (state_of self.now).links }
        ensures sound { Sound N.value N.order self.now }
    {
        self.links.len()
    }

    /// How many nodes and how many links there is room for.
    pub fn capacity(&self) -> (usize, usize)
        ensures { result ≡ rooms (state_of self.now) }
    {
        let links = self.links.capacity().min(self.adjacency.link_room());
        (self.adjacency.room(), links)
    }

    /// Whether links have a direction.
    pub fn is_directed(&self) -> bool
        ensures { result ≡ directed (state_of self.now).kind }
    {
        self.kind.is_directed()
    }
}
