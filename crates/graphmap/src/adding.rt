// A link is added to a map, or to the parts of one.
ghost use Rattle.std.specs.Prelude.{◌≡◌, Err as Vacant};
ghost use Rattle.model.specs.Keys.{keys};
ghost use Rattle.model.specs.Maps.{edge_key};
ghost use Rattle.model.specs.Calls.{add_new, add_edge};
ghost use Rattle.graphmap.specs.Parts.{Sound, SoundParts, link_search, parts_of, state_of};

use crate::map::GraphMap;
use crate::parts::{put_back, take_out};
use adjacency::adjacency::NodesWithRows;
use adjacency::joins::lacking;
use keys::kinds::Kind;
use keys::nodes::{Compare, NodeTrait, same};
use keys::refusals::Refusal;
use rows::cells::RowHead;
use rows::memory::Rows;
use table::table::{Table, Vacancy};

/// The key that the link from `a` to `b` is stored under.
pub fn edge_key<N: NodeTrait>(kind: Kind, a: N, b: N) -> (N, N)
    ensures { result ≡ edge_key (keys N.value N.order) kind a b }
{
    if kind.is_directed() || a.compare(&b).is_le() {
        (a, b)
    } else {
        (b, a)
    }
}

// Adds a link that is not there, where there is room. `v` is what the search for its key answered.
fn add_new<N: NodeTrait, E: Copy>(
    kind: Kind,
    adjacency: &mut NodesWithRows<'_, '_, N>,
    links: &mut Table<'_, (N, N), E>,
    a: N,
    b: N,
    w: E,
    v: Vacancy,
) -> Result<Option<E>, Refusal>
    requires sound { Sound N.value N.order (record { kind = kind; rows = adjacency.old; links = links.old }) }
    requires absent { link_search N.value N.order N.hashed (record { kind = kind; rows = adjacency.old; links = links.old }) a b ≡ Vacant v }
    ensures sound { Sound N.value N.order (record { kind = kind; rows = adjacency.new; links = links.new }) }
    ensures done { (result, state_of (record { kind = kind; rows = adjacency.new; links = links.new })) ≡ add_new (keys N.value N.order) a b w (state_of (record { kind = kind; rows = adjacency.old; links = links.old })) }
{
    let p = links.len();
    if p >= links.capacity().min(adjacency.link_room()) {
        return Err(Refusal::LinksFull);
    }
    let first = adjacency.find(&a);
    let second = adjacency.find(&b);
    let more = lacking(first, second, same(&a, &b));
    if adjacency.room() - adjacency.len() < more {
        return Err(Refusal::NodesFull);
    }
    adjacency.join(p, a, b, first, second);
    links.append(edge_key(kind, a, b), w, v);
    Ok(None)
}

// Adds the link from `a` to `b`, or gives it another weight where it is there.
fn add_link<N: NodeTrait, E: Copy>(
    kind: Kind,
    adjacency: &mut NodesWithRows<'_, '_, N>,
    links: &mut Table<'_, (N, N), E>,
    a: N,
    b: N,
    w: E,
) -> Result<Option<E>, Refusal>
    requires sound { Sound N.value N.order (record { kind = kind; rows = adjacency.old; links = links.old }) }
    ensures sound { Sound N.value N.order (record { kind = kind; rows = adjacency.new; links = links.new }) }
    ensures done { (result, state_of (record { kind = kind; rows = adjacency.new; links = links.new })) ≡ add_edge (keys N.value N.order) a b w (state_of (record { kind = kind; rows = adjacency.old; links = links.old })) }
{
    match links.find(&edge_key(kind, a, b)) {
        Ok(p) => Ok(links.set_value(p, w)),
        Err(v) => add_new(kind, adjacency, links, a, b, w, v),
    }
}

/// Adds the link from `a` to `b` to the parts of a map, or gives it another weight where it is there.
pub fn add_edge<N: NodeTrait, E: Copy>(
    kind: Kind,
    nodes: &mut Table<'_, N, RowHead>,
    links: &mut Table<'_, (N, N), E>,
    rows: &mut Rows<'_, N>,
    a: N,
    b: N,
    w: E,
) -> Result<Option<E>, Refusal>
    requires sound { SoundParts N.value N.order (parts_of kind nodes.old links.old rows.old) }
    ensures sound { SoundParts N.value N.order (parts_of kind nodes.new links.new rows.new) }
    ensures done { (result, state_of (parts_of kind nodes.new links.new rows.new)) ≡ add_edge (keys N.value N.order) a b w (state_of (parts_of kind nodes.old links.old rows.old)) }
{
    let mut adjacency = take_out(nodes, rows);
    let answer = add_link(kind, &mut adjacency, links, a, b, w);
    put_back(adjacency, nodes, rows);
    answer
}

impl<'a, N: NodeTrait, E: Copy> GraphMap<'a, N, E> {
    /// Adds the link from `a` to `b`, or gives it another weight where it is there.
    pub fn add_edge(&mut self, a: N, b: N, w: E) -> Result<Option<E>, Refusal>
        ensures { (result, state_of self.new) ≡ add_edge (keys N.value N.order) a b w (state_of self.old) }
    {
        add_link(self.kind, &mut self.adjacency, &mut self.links, a, b, w)
    }
}
