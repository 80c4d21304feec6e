// What a map answers of the row of one node.
ghost use Rattle.std.specs.Prelude.{◌≡◌, ℕ, ◌<◌, length, Some as Present};
ghost use Rattle.std.specs.List.{slice_get};
ghost use Rattle.model.specs.Keys.{keys};
ghost use Rattle.model.specs.Questions.{degree_of, row_list, neighbor_list, edge_list};
ghost use Rattle.rows.specs.Walks.{walk_of, upcoming};
ghost use Rattle.adjacency.specs.Heads.{row_of};
ghost use Rattle.graphmap.specs.Parts.{SoundParts, parts_of, state_of};

use crate::edges::edge_at;
use crate::map::GraphMap;
use adjacency::reads::{head_of, row_of};
use keys::kinds::{Direction, Kind};
use keys::nodes::NodeTrait;
use model::edge::Edge;
use rows::asked::Asked;
use rows::cells::{Cell, RowHead};
use rows::sides::side_of;
use rows::walk::{Walk, nth_cell};
use table::table::Table;

impl<'a, N: NodeTrait, E: Copy> GraphMap<'a, N, E> {
    /// The number of entries in the row of `n`. None where `n` is absent.
    pub fn degree(&self, n: N) -> Option<usize>
        ensures { result ≡ degree_of (keys N.value N.order) n (state_of self.now) }
    {
        let nodes = self.adjacency.nodes();
        let cells = self.adjacency.cells();
        degree(self.kind, nodes, &self.links, cells, n)
    }

    /// The entry of the row of `n` that `k` entries come before: the key of the other end, and the direction.
    pub fn row_entry(&self, n: N, k: usize) -> Option<(N, Direction)>
        ensures { result ≡ slice_get (row_list (keys N.value N.order) n (state_of self.now)) k }
    {
        let nodes = self.adjacency.nodes();
        let cells = self.adjacency.cells();
        row_entry(self.kind, nodes, &self.links, cells, n, k)
    }

    /// The neighbour of `n` in the direction `d` that `k` neighbours come before.
    pub fn neighbor(&self, n: N, d: Direction, k: usize) -> Option<N>
        ensures { result ≡ slice_get (neighbor_list (keys N.value N.order) n d (state_of self.now)) k }
    {
        let nodes = self.adjacency.nodes();
        let cells = self.adjacency.cells();
        neighbor(self.kind, nodes, &self.links, cells, n, d, k)
    }

    /// The edge of `n` in the direction `d` that `k` edges come before. Its link is found by the cell of the entry, with
    /// no search for its key.
    pub fn edge(&self, n: N, d: Direction, k: usize) -> Option<Edge<N, E>>
        ensures { result ≡ slice_get (edge_list (keys N.value N.order) n d (state_of self.now)) k }
    {
        let nodes = self.adjacency.nodes();
        let cells = self.adjacency.cells();
        edge(self.kind, nodes, &self.links, cells, n, d, k)
    }
}

// The cell that `k` cells of the row of `n` come before, of those that the direction `d` shows in a map of the kind.
fn cell_at<N: NodeTrait>(
    kind: Kind,
    nodes: &Table<'_, N, RowHead>,
    cells: &[Cell<N>],
    n: N,
    d: Direction,
    k: usize,
) -> Option<u32>
    ensures cell { (e : N) → result ≡ slice_get (upcoming (keys N.value N.order) e cells.now kind d (N.value n) (walk_of (row_of (keys N.value N.order) (N.value n) nodes.now.entries))) k }
    ensures within { (c : ℕ) → result ≡ Present c → c < length cells.now }
{
    let walk = Walk::of(row_of(nodes, &n));
    let asked = Asked {
        kind,
        direction: d,
        node: n,
    };
    nth_cell(cells, asked, walk, k)
}

/// The number of entries in the row of `n`, in the parts of a map. None where `n` is absent.
pub fn degree<N: NodeTrait, E: Copy>(
    kind: Kind,
    nodes: &Table<'_, N, RowHead>,
    links: &Table<'_, (N, N), E>,
    cells: &[Cell<N>],
    n: N,
) -> Option<usize>
    requires sound { SoundParts N.value N.order (parts_of kind nodes.now links.now cells.now) }
    ensures { result ≡ degree_of (keys N.value N.order) n (state_of (parts_of kind nodes.now links.now cells.now)) }
{
    head_of(nodes, &n).map(RowHead::len)
}

/// The entry of the row of `n` that `k` entries come before, in the parts of a map: the key of the other end, and the
/// direction.
pub fn row_entry<N: NodeTrait, E: Copy>(
    kind: Kind,
    nodes: &Table<'_, N, RowHead>,
    links: &Table<'_, (N, N), E>,
    cells: &[Cell<N>],
    n: N,
    k: usize,
) -> Option<(N, Direction)>
    requires sound { SoundParts N.value N.order (parts_of kind nodes.now links.now cells.now) }
    ensures { result ≡ slice_get (row_list (keys N.value N.order) n (state_of (parts_of kind nodes.now links.now cells.now))) k }
{
    // as in an Undirected map, where any direction shows every entry
    let c = cell_at(Kind::Undirected, nodes, cells, n, Direction::Outgoing, k)?;
    Some((cells[c as usize].key, side_of(c)))
}

/// The neighbour of `n` in the direction `d` that `k` neighbours come before, in the parts of a map.
pub fn neighbor<N: NodeTrait, E: Copy>(
    kind: Kind,
    nodes: &Table<'_, N, RowHead>,
    links: &Table<'_, (N, N), E>,
    cells: &[Cell<N>],
    n: N,
    d: Direction,
    k: usize,
) -> Option<N>
    requires sound { SoundParts N.value N.order (parts_of kind nodes.now links.now cells.now) }
    ensures { result ≡ slice_get (neighbor_list (keys N.value N.order) n d (state_of (parts_of kind nodes.now links.now cells.now))) k }
{
    let c = cell_at(kind, nodes, cells, n, d, k)?;
    Some(cells[c as usize].key)
}

/// The edge of `n` in the direction `d` that `k` edges come before, in the parts of a map. Its link is found by the cell
/// of the entry, with no search for its key.
pub fn edge<N: NodeTrait, E: Copy>(
    kind: Kind,
    nodes: &Table<'_, N, RowHead>,
    links: &Table<'_, (N, N), E>,
    cells: &[Cell<N>],
    n: N,
    d: Direction,
    k: usize,
) -> Option<Edge<N, E>>
    requires sound { SoundParts N.value N.order (parts_of kind nodes.now links.now cells.now) }
    ensures { result ≡ slice_get (edge_list (keys N.value N.order) n d (state_of (parts_of kind nodes.now links.now cells.now))) k }
{
    let c = cell_at(kind, nodes, cells, n, d, k)?;
    edge_at(links, cells, n, d, c)
}
