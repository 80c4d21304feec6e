ghost use Rattle.std.specs.Prelude.{◌≡◌, slice_index_or};
ghost use Rattle.std.specs.List.{slice_get};
ghost use Rattle.model.specs.Keys.{keys};
ghost use Rattle.model.specs.Lists.{found};
ghost use Rattle.model.specs.Maps.{hits};
ghost use Rattle.rows.specs.HalfEdges.{side};
ghost use Rattle.rows.specs.Links.{Linked, listed, cell_keys};
ghost use Rattle.rows.specs.Walks.{upcoming, first_of};

use crate::asked::Asked;
use crate::cells::RowHead;
use crate::memory::Rows;
use crate::walk::{Walk, advance, nth_cell, search};
use keys::nodes::NodeTrait;

impl<'a, N: NodeTrait> Rows<'a, N> {
    /// The first cell of the row that names the node in the direction that is asked for.
    pub fn search(&self, row: RowHead, asked: Asked<N>) -> Option<u32>
        requires linked { Linked self.now row }
        ensures { (d : N) → result ≡ found (λ x. hits (keys N.value N.order) asked.kind (N.value asked.node) asked.direction (slice_index_or (cell_keys self.now) x d, side x)) (listed self.now row) }
    {
        search(self.cells, row, asked)
    }

    /// The next cell of the walk whose entry the direction shows, where the row is that of the
    /// node. The walk goes on after that cell. It ends at a cell that is not in the memory.
    pub fn advance(&self, asked: Asked<N>, walk: &mut Walk) -> Option<u32>
        ensures { (e : N) → let coming = upcoming (keys N.value N.order) e self.now asked.kind asked.direction (N.value asked.node) in (result, coming walk.new) ≡ first_of (coming walk.old) }
    {
        advance(self.cells, asked, walk)
    }

    /// The cell that `k` cells of the walk come before, of those that the direction shows.
    pub fn nth_cell(&self, asked: Asked<N>, walk: Walk, k: usize) -> Option<u32>
        ensures { (e : N) → result ≡ slice_get (upcoming (keys N.value N.order) e self.now asked.kind asked.direction (N.value asked.node) walk) k }
    {
        nth_cell(self.cells, asked, walk, k)
    }
}
