ghost use Rattle.std.specs.Prelude.{◌≡◌, ℕ, ◌<◌, map, length, Some as Present};
ghost use Rattle.model.specs.Keys.{keys};
ghost use Rattle.model.specs.Questions.{neighbor_list, edge_list};
ghost use Rattle.rows.specs.Walks.{first_of};
ghost use Rattle.graphmap.specs.Parts.{SoundParts, parts_of, state_of};
ghost use Rattle.graphmap.specs.Walks.{first_by, origin, coming, key_of, edge_of};

use crate::edges::edge_at;
use crate::map::GraphMap;
use adjacency::reads::row_of;
use keys::kinds::{Direction, Kind};
use keys::nodes::NodeTrait;
use model::edge::Edge;
use rows::asked::Asked;
use rows::cells::{Cell, RowHead};
use rows::walk::{Walk, advance};
use table::table::Table;

/// A walk along the row of a node: the node, the direction that is asked for, and how far it has come. A walk that was
/// made on another map ends, and gives keys and links of this one.
#[derive(Clone, Copy)]
pub struct Neighbors<N> {
    start: N,
    direction: Direction,
    walk: Walk,
}

impl<'a, N: NodeTrait, E: Copy> GraphMap<'a, N, E> {
    /// A walk from the start of the row of `n`; of an absent node nothing is to come.
    pub fn neighbors_from(&self, n: N, d: Direction) -> Neighbors<N>
        ensures origin { origin result ≡ (n, d) }
        ensures neighbors { (e : N) → map (key_of e self.now.rows.cells) (coming (keys N.value N.order) e self.now.rows.cells self.now.kind result) ≡ neighbor_list (keys N.value N.order) n d (state_of self.now) }
        ensures edges { (e : N) → map (edge_of e self.now.rows.cells self.now.links.entries (n, d)) (coming (keys N.value N.order) e self.now.rows.cells self.now.kind result) ≡ map Present (edge_list (keys N.value N.order) n d (state_of self.now)) }
    {
        let nodes = self.adjacency.nodes();
        let cells = self.adjacency.cells();
        neighbors_from(self.kind, nodes, &self.links, cells, n, d)
    }

    /// The next neighbour of the walk.
    pub fn next_neighbor(&self, w: &mut Neighbors<N>) -> Option<N>
        ensures origin { origin w.new ≡ origin w.old }
        ensures next { (e : N) → let left = coming (keys N.value N.order) e self.now.rows.cells self.now.kind in (result, left w.new) ≡ first_by (λ c. Present (key_of e self.now.rows.cells c)) (left w.old) }
    {
        next_neighbor(self.kind, self.adjacency.cells(), w)
    }

    /// The next edge of the walk. None where there is no such link.
    pub fn next_edge(&self, w: &mut Neighbors<N>) -> Option<Edge<N, E>>
        ensures origin { origin w.new ≡ origin w.old }
        ensures next { (e : N) → let left = coming (keys N.value N.order) e self.now.rows.cells self.now.kind in (result, left w.new) ≡ first_by (edge_of e self.now.rows.cells self.now.links.entries (origin w.old)) (left w.old) }
    {
        next_edge(self.kind, &self.links, self.adjacency.cells(), w)
    }
}

/// A walk from the start of the row of `n`, in the parts of a map; of an absent node nothing is to come.
pub fn neighbors_from<N: NodeTrait, E: Copy>(
    kind: Kind,
    nodes: &Table<'_, N, RowHead>,
    links: &Table<'_, (N, N), E>,
    cells: &[Cell<N>],
    n: N,
    d: Direction,
) -> Neighbors<N>
    requires sound { SoundParts N.value N.order (parts_of kind nodes.now links.now cells.now) }
    ensures origin { origin result ≡ (n, d) }
    ensures neighbors { (e : N) → map (key_of e cells.now) (coming (keys N.value N.order) e cells.now kind result) ≡ neighbor_list (keys N.value N.order) n d (state_of (parts_of kind nodes.now links.now cells.now)) }
    ensures edges { (e : N) → map (edge_of e cells.now links.now.entries (n, d)) (coming (keys N.value N.order) e cells.now kind result) ≡ map Present (edge_list (keys N.value N.order) n d (state_of (parts_of kind nodes.now links.now cells.now))) }
{
    Neighbors {
        start: n,
        direction: d,
        walk: Walk::of(row_of(nodes, &n)),
    }
}

// The next cell of the walk.
fn next_cell<N: NodeTrait>(kind: Kind, cells: &[Cell<N>], w: &mut Neighbors<N>) -> Option<u32>
    ensures origin { origin w.new ≡ origin w.old }
    ensures next { (e : N) → let left = coming (keys N.value N.order) e cells.now kind in (result, left w.new) ≡ first_of (left w.old) }
    ensures within { (c : ℕ) → result ≡ Present c → c < length cells.now }
{
    let asked = Asked {
        kind,
        direction: w.direction,
        node: w.start,
    };
    advance(cells, asked, &mut w.walk)
}

/// The next neighbour of the walk, in any cells.
pub fn next_neighbor<N: NodeTrait>(kind: Kind, cells: &[Cell<N>], w: &mut Neighbors<N>) -> Option<N>
    ensures origin { origin w.new ≡ origin w.old }
    ensures next { (e : N) → let left = coming (keys N.value N.order) e cells.now kind in (result, left w.new) ≡ first_by (λ c. Present (key_of e cells.now c)) (left w.old) }
{
    let c = next_cell(kind, cells, w)?;
    Some(cells[c as usize].key)
}

/// The next edge of the walk, in any cells and any links. None where there is no such link.
pub fn next_edge<N: NodeTrait, E: Copy>(
    kind: Kind,
    links: &Table<'_, (N, N), E>,
    cells: &[Cell<N>],
    w: &mut Neighbors<N>,
) -> Option<Edge<N, E>>
    ensures origin { origin w.new ≡ origin w.old }
    ensures next { (e : N) → let left = coming (keys N.value N.order) e cells.now kind in (result, left w.new) ≡ first_by (edge_of e cells.now links.now.entries (origin w.old)) (left w.old) }
{
    let c = next_cell(kind, cells, w)?;
    edge_at(links, cells, w.start, w.direction, c)
}
