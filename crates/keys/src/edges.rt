ghost use Rattle.std.specs.Prelude.{◌≡◌};

use crate::weights::Weight;

/// What a list of links can hold: a value that gives two nodes and the weight of a link.
pub trait IntoWeightedEdge<E>: Copy {
    /// The type of the nodes.
    type NodeId;

    ghost item: { Self → Self.NodeId × Self.NodeId × E };

    /// The link's source, its target and its weight.
    fn into_weighted_edge(self) -> (Self::NodeId, Self::NodeId, E)
        ensures { result ≡ item self };
}

/// A pair of nodes is a link of the default weight.
impl<N: Copy, E: Weight> IntoWeightedEdge<E> for (N, N) {
    type NodeId = N;

    ghost item = { λ p. (p.0, p.1, E.defaulted) };

    fn into_weighted_edge(self) -> (N, N, E) {
        let (source, target) = self;
        (source, target, E::default_weight())
    }
}

/// A triple gives the weight as well.
impl<N: Copy, E: Copy> IntoWeightedEdge<E> for (N, N, E) {
    type NodeId = N;

    ghost item = { λ p. (p.0, p.1, p.2) };

    fn into_weighted_edge(self) -> Self {
        self
    }
}
