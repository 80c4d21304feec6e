ghost use Rattle.std.specs.Prelude.{◌≡◌};
ghost use Rattle.model.specs.Keys.{keys};
ghost use Rattle.model.specs.Maps.{agree, hits};
ghost use Rattle.model.specs.Questions.{shown};
ghost use Rattle.rows.specs.HalfEdges.{side};

use crate::sides::{agrees, side_of};
use keys::kinds::{Direction, Kind};
use keys::nodes::{NodeTrait, same};

/// What a row is asked: for a node and a direction, in a map of that kind.
#[derive(Clone, Copy)]
pub struct Asked<N> {
    pub kind: Kind,
    pub direction: Direction,
    pub node: N,
}

impl<N: NodeTrait> Asked<N> {
    // Whether the entry of the cell `x` has the direction, or any is meant.
    fn agrees(&self, x: u32) -> bool
        ensures { result ≡ agree self.now.kind (side x) self.now.direction }
    {
        agrees(self.kind, side_of(x), self.direction)
    }

    // Whether the cell `x` of the key `key` names the node in the direction.
    pub(crate) fn names(&self, x: u32, key: &N) -> bool
        ensures { result ≡ hits (keys N.value N.order) self.now.kind (N.value self.now.node) self.now.direction (key.now, side x) }
    {
        same(key, &self.node) && self.agrees(x)
    }

    // Whether the direction shows the entry of the cell `x` of the key `key` in the row of the node.
    pub(crate) fn shows(&self, x: u32, key: &N) -> bool
        ensures { result ≡ shown (keys N.value N.order) self.now.kind self.now.direction (N.value self.now.node) (key.now, side x) }
    {
        self.agrees(x) || same(key, &self.node)
    }
}
