ghost use Rattle.std.specs.Prelude.{◌≡◌, ◌<◌, length};
ghost use Rattle.model.specs.Questions.{ends};
ghost use Rattle.graphmap.specs.Walks.{edge_of};

use keys::kinds::Direction;
use keys::nodes::NodeTrait;
use model::edge::Edge;
use rows::cells::Cell;
use table::table::Table;

// The two ends of a link between `n` and `m`, in the order of the direction `d` from `n`.
fn ends_of<N>(d: Direction, n: N, m: N) -> (N, N)
    ensures { result ≡ ends d n m }
{
    match d {
        Direction::Outgoing => (n, m),
        Direction::Incoming => (m, n),
    }
}

// The edge of the cell `c` in the row of `n`, seen in the direction `d`. Its link is at half the number of the cell.
pub(crate) fn edge_at<N: NodeTrait, E: Copy>(
    links: &Table<'_, (N, N), E>,
    cells: &[Cell<N>],
    n: N,
    d: Direction,
    c: u32,
) -> Option<Edge<N, E>>
    requires within { c < length cells.now }
    ensures { (e : N) → result ≡ edge_of e cells.now links.now.entries (n, d) c }
{
    let place = c as usize / 2;
    let link = links.as_slice().get(place)?;
    let (source, target) = ends_of(d, n, cells[c as usize].key);
    Some(Edge {
        source,
        target,
        weight: link.value,
        place,
    })
}
