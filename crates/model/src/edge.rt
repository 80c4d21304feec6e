/// A link as it is seen from one of its ends: the two ends in the order of the walk, its weight and
/// its place.
#[derive(Clone, Copy, PartialEq, Eq, Debug)]
pub struct Edge<N, E> {
    pub source: N,
    pub target: N,
    pub weight: E,
    pub place: usize,
}
