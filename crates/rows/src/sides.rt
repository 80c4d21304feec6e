ghost use Rattle.std.specs.Prelude.{◌≡◌};
ghost use Rattle.model.specs.Maps.{agree};
ghost use Rattle.rows.specs.HalfEdges.{side};

use keys::kinds::{Direction, Kind};

/// The direction of the entry that the cell `c` has: the cells of a link's first end are even.
pub fn side_of(c: u32) -> Direction
    ensures { result ≡ side c }
{
    if c % 2 == 0 {
        Direction::Outgoing
    } else {
        Direction::Incoming
    }
}

/// Whether an entry of direction `d` is meant where `t` is asked for.
pub fn agrees(kind: Kind, d: Direction, t: Direction) -> bool
    ensures { result ≡ agree kind d t }
{
    match kind {
        Kind::Directed => d == t,
        Kind::Undirected => true,
    }
}
