// A link is taken out of a map, or out of the parts of one.
ghost use Rattle.std.specs.Prelude.{◌≡◌};
ghost use Rattle.model.specs.Keys.{keys};
ghost use Rattle.model.specs.Calls.{remove_edge};
ghost use Rattle.graphmap.specs.Parts.{Sound, SoundParts, parts_of, state_of};

use crate::map::GraphMap;
use crate::parts::{put_back, take_out};
use adjacency::adjacency::NodesWithRows;
use keys::kinds::Kind;
use keys::nodes::NodeTrait;
use rows::cells::RowHead;
use rows::memory::Rows;
use table::table::Table;

// Takes out the link from `a` to `b` and answers its weight.
fn remove_link<N: NodeTrait, E: Copy>(
    kind: Kind,
    adjacency: &mut NodesWithRows<'_, '_, N>,
    links: &mut Table<'_, (N, N), E>,
    a: N,
    b: N,
) -> Option<E>
    requires sound { Sound N.value N.order (record { kind = kind; rows = adjacency.old; links = links.old }) }
    ensures sound { Sound N.value N.order (record { kind = kind; rows = adjacency.new; links = links.new }) }
    ensures done { (result, state_of (record { kind = kind; rows = adjacency.new; links = links.new })) ≡ remove_edge (keys N.value N.order) a b (state_of (record { kind = kind; rows = adjacency.old; links = links.old })) }
{
    let i = adjacency.find(&a).ok()?;
    let j = adjacency.find(&b).ok()?;
    let c = adjacency.entry_of(kind, i, j, a, b)?;
    adjacency.sever(i, j, c);
    let taken = links.swap_remove((c / 2) as usize)?;
    adjacency.settle(taken.gap, taken.last);
    Some(taken.entry.1)
}

/// Takes the link from `a` to `b` out of the parts of a map and answers its weight.
pub fn remove_edge<N: NodeTrait, E: Copy>(
    kind: Kind,
    nodes: &mut Table<'_, N, RowHead>,
    links: &mut Table<'_, (N, N), E>,
    rows: &mut Rows<'_, N>,
    a: N,
    b: N,
) -> Option<E>
    requires sound { SoundParts N.value N.order (parts_of kind nodes.old links.old rows.old) }
    ensures sound { SoundParts N.value N.order (parts_of kind nodes.new links.new rows.new) }
    ensures done { (result, state_of (parts_of kind nodes.new links.new rows.new)) ≡ remove_edge (keys N.value N.order) a b (state_of (parts_of kind nodes.old links.old rows.old)) }
{
    let mut adjacency = take_out(nodes, rows);
    let weight = remove_link(kind, &mut adjacency, links, a, b);
    put_back(adjacency, nodes, rows);
    weight
}

impl<'a, N: NodeTrait, E: Copy> GraphMap<'a, N, E> {
    /// Takes out the link from `a` to `b` and answers its weight.
    pub fn remove_edge(&mut self, a: N, b: N) -> Option<E>
        ensures { (result, state_of self.new) ≡ remove_edge (keys N.value N.order) a b (state_of self.old) }
    {
        remove_link(self.kind, &mut self.adjacency, &mut self.links, a, b)
    }
}
