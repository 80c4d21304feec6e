ghost use Rattle.std.specs.Prelude.{◌≡◌};
ghost use Rattle.keys.specs.Refusals.{number_of};

/// Why a call was refused. A call that is refused changes nothing but what its answer says.
#[derive(Clone, Copy, PartialEq, Eq, Debug)]
pub enum Refusal {
    /// The link is new, and there are as many links as the map can hold.
    LinksFull,
    /// The keys that are not in the map yet do not fit in its room for nodes.
    NodesFull,
    /// The node is not in the map.
    NodeAbsent,
    /// The link is not in the map.
    LinkAbsent,
    /// The index is at or past the count of nodes.
    PastCount,
    /// The graph would have more nodes than its numbers can count.
    GraphNodesFull,
    /// The graph would have more links than its numbers can count.
    GraphLinksFull,
    /// The memory for the graph is too short.
    GraphMemoryShort,
    /// An end of the link is past the graph's nodes.
    EndPastNodes,
    /// The tape has a record of an unknown kind.
    UnknownRecord,
    /// The tape ends inside a record.
    RecordCut,
    /// The output does not fit in its memory.
    NoRoom,
    /// The input is longer than can be read.
    InputTooLong,
}

impl Refusal {
    /// The number by which the refusal is reported, from 1.
    pub fn number(self) -> u8
        ensures { result ≡ number_of self }
    {
        self as u8 + 1
    }
}
