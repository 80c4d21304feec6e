ghost use Rattle.std.specs.Prelude.{◌≡◌};
ghost use Rattle.keys.specs.Kinds.{opposite_of, index_of, directed};

/// Which way the links at a node are followed.
#[derive(Clone, Copy, PartialEq, Eq, PartialOrd, Ord, Debug)]
pub enum Direction {
    /// From the node to the other end.
    Outgoing = 0,
    /// From the other end to the node.
    Incoming = 1,
}

impl Direction {
    /// The other direction.
    pub fn opposite(self) -> Direction
        ensures { result ≡ opposite_of self }
    {
        match self {
            Direction::Outgoing => Direction::Incoming,
            Direction::Incoming => Direction::Outgoing,
        }
    }

    /// 0 for outgoing and 1 for incoming.
    pub fn index(self) -> usize
        ensures { result ≡ index_of self }
    {
        self as usize
    }
}

/// Whether the two ends of a link are told apart.
#[derive(Clone, Copy, PartialEq, Eq, Debug)]
pub enum Kind {
    /// A link goes from its first end to its second.
    Directed,
    /// A link joins its two ends in either order.
    Undirected,
}

impl Kind {
    /// Whether links have a direction.
    pub fn is_directed(self) -> bool
        ensures { result ≡ directed self }
    {
        self == Kind::Directed
    }
}
