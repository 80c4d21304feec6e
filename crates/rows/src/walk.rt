ghost use Rattle.std.specs.Prelude.{◌≡◌, slice_index_or};
ghost use Rattle.std.specs.Iterator.{item_count};
ghost use Rattle.std.specs.List.{slice_get};
ghost use Rattle.model.specs.Keys.{keys};
ghost use Rattle.model.specs.Lists.{found};
ghost use Rattle.model.specs.Maps.{hits};
ghost use Rattle.rows.specs.HalfEdges.{side};
ghost use Rattle.rows.specs.Links.{Linked, listed, cell_keys};
ghost use Rattle.rows.specs.Walks.{walk_of, still_met, StepsOn, upcoming, first_of};

use crate::asked::Asked;
use crate::cells::{Cell, RowHead};
use keys::nodes::NodeTrait;

/// How far a walk along a row has come: the cell that is next, and how many cells are left.
#[derive(Clone, Copy)]
pub struct Walk {
    at: u32,
    left: u32,
}

impl Walk {
    /// A walk from the start of the row.
    pub fn of(row: RowHead) -> Walk
        ensures { result ≡ walk_of row }
    {
        Walk {
            at: row.first,
            left: row.len,
        }
    }
}

// The cells of a walk, each with its number. The walk ends at a cell that is not in the memory.
#[derive(Drop)]
struct Steps<'r, N> {
    cells: &'r [Cell<N>],
    walk: Walk,
}

impl<'r, N> Iterator for Steps<'r, N> {
    type Item = (u32, &'r Cell<N>);

    ghost next_gives = { StepsOn };

    ghost remaining = { item_count still_met };

    fn next(&mut self) -> Option<(u32, &'r Cell<N>)> {
        if self.walk.left == 0 {
            return None;
        }
        let x = self.walk.at;
        let cell = self.cells.get(x as usize)?;
        self.walk.at = cell.next;
        self.walk.left -= 1;
        Some((x, cell))
    }
}

/// The first cell of the row that names the node in the direction that is asked for.
pub fn search<N: NodeTrait>(cells: &[Cell<N>], row: RowHead, asked: Asked<N>) -> Option<u32>
    requires linked { Linked cells.now row }
    ensures { (d : N) → result ≡ found (λ x. hits (keys N.value N.order) asked.kind (N.value asked.node) asked.direction (slice_index_or (cell_keys cells.now) x d, side x)) (listed cells.now row) }
{
    let walk = Walk::of(row);
    Steps { cells, walk }
        .find(|&(x, cell)| asked.names(x, &cell.key))
        .map(|(x, _)| x)
}

/// The next cell of the walk whose entry the direction shows, where the row is that of the node. The
/// walk goes on after that cell. It ends at a cell that is not in the memory, which may be any.
pub fn advance<N: NodeTrait>(cells: &[Cell<N>], asked: Asked<N>, walk: &mut Walk) -> Option<u32>
    ensures { (e : N) → let coming = upcoming (keys N.value N.order) e cells.now asked.kind asked.direction (N.value asked.node) in (result, coming walk.new) ≡ first_of (coming walk.old) }
{
    // Field by field: a walk that is copied whole is packed and unpacked at each step, a third more instructions.
    let mut steps = Steps {
        cells,
        walk: Walk {
            at: walk.at,
            left: walk.left,
        },
    };
    let shown = steps.find(|&(x, cell)| asked.shows(x, &cell.key));
    walk.at = steps.walk.at;
    walk.left = steps.walk.left;
    shown.map(|(x, _)| x)
}

/// The cell that `k` cells of the walk come before, of those that the direction shows.
pub fn nth_cell<N: NodeTrait>(
    cells: &[Cell<N>],
    asked: Asked<N>,
    walk: Walk,
    k: usize,
) -> Option<u32>
    ensures { (e : N) → result ≡ slice_get (upcoming (keys N.value N.order) e cells.now asked.kind asked.direction (N.value asked.node) walk) k }
{
    Steps { cells, walk }
        .filter(|&(x, cell)| asked.shows(x, &cell.key))
        .nth(k)
        .map(|(x, _)| x)
}
