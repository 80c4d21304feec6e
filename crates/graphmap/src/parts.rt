// A map is put together from its parts, and taken apart.
ghost use Rattle.std.specs.Prelude.{◌≡◌};
ghost use Rattle.adjacency.specs.Stages.{Stage};
ghost use Rattle.graphmap.specs.Parts.{SoundParts, parts_of};

use crate::map::GraphMap;
use adjacency::adjacency::{Adjacency, NodesWithRows};
use keys::kinds::Kind;
use keys::nodes::NodeTrait;
use rows::cells::RowHead;
use rows::memory::Rows;
use std::mem;
use table::table::Table;

impl<'a, N: NodeTrait, E: Copy> GraphMap<'a, N, E> {
    /// The map of these parts, where they fit one another.
    pub fn from_parts(
        kind: Kind,
        nodes: Table<'a, N, RowHead>,
        links: Table<'a, (N, N), E>,
        rows: Rows<'a, N>,
    ) -> Self
        requires sound { SoundParts N.value N.order (parts_of kind nodes links rows) }
        ensures { result ≡ parts_of kind nodes.entry links.entry rows.entry }
    {
        GraphMap {
            kind,
            adjacency: Adjacency::from_parts(nodes, rows),
            links,
        }
    }

    /// The kind, the table of the nodes, the table of the links, and the cells of all rows. They fit one another.
    pub fn into_parts(
        self,
    ) -> (
        Kind,
        Table<'a, N, RowHead>,
        Table<'a, (N, N), E>,
        Rows<'a, N>,
    )
        ensures parts { parts_of result.0 result.1 result.2 result.3 ≡ self.entry }
        ensures sound { SoundParts N.value N.order (parts_of result.0 result.1 result.2 result.3) }
    {
        let (nodes, rows) = self.adjacency.into_parts();
        (self.kind, nodes, self.links, rows)
    }
}

// Takes the nodes with their rows out of the table and the rows that have them, which are left empty.
pub(crate) fn take_out<'a, 'r, N: NodeTrait>(
    nodes: &mut Table<'a, N, RowHead>,
    rows: &mut Rows<'r, N>,
) -> NodesWithRows<'a, 'r, N>
    requires sound { Stage N.value N.order (record { nodes = nodes.old; cells = rows.old }) }
    ensures { result ≡ record { nodes = nodes.old; cells = rows.old } }
{
    let nodes = mem::replace(nodes, Table::new(&mut []));
    let rows = mem::replace(rows, Rows::new(&mut []));
    NodesWithRows::from_parts(nodes, rows)
}

// Puts the nodes and their rows into the table and the rows.
pub(crate) fn put_back<'a, 'r, N: NodeTrait>(
    adjacency: NodesWithRows<'a, 'r, N>,
    nodes: &mut Table<'a, N, RowHead>,
    rows: &mut Rows<'r, N>,
)
    ensures parts { record { nodes = nodes.new; cells = rows.new } ≡ adjacency.entry }
    ensures stage { Stage N.value N.order (record { nodes = nodes.new; cells = rows.new }) }
{
    let (full, cells) = adjacency.into_parts();
    *nodes = full;
    *rows = cells;
}
