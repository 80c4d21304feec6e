ghost use Rattle.std.specs.Prelude.{◌≡◌, ◌<◌, [], ◌∷◌, slice_set};
ghost use Rattle.table.specs.Slots.{at, none, place_of, fresh_slot};

/// What a link holds where its chain ends.
// A number: the index takes 8 bytes of a slot in the lent memory, and with `Option`s it would take 14.
pub const NONE: usize = 65535;

/// One entry, with the part of the index that lies beside it: the heads and the marks of two buckets,
/// 2i and 2i + 1 at place i, and the link of the entry's own chain.
#[derive(Clone, Copy)]
pub struct Slot<K, V> {
    pub key: K,
    pub value: V,
    pub(crate) heads: [u16; 2],
    pub(crate) next: u16,
    pub(crate) marks: [u8; 2],
}

impl<K, V> Slot<K, V> {
    /// A slot for a memory that is to be lent. A table over that memory does not count what it holds.
    pub fn new(key: K, value: V) -> Self
        ensures { result ≡ fresh_slot key value }
    {
        Slot {
            key,
            value,
            heads: [0; 2],
            next: 0,
            marks: [0; 2],
        }
    }

    // The two writes are methods of a slot, as a proof does not learn the length of an array in a slice's element.
    pub(crate) fn set_head(&mut self, side: usize, v: u16)
        requires { side < 2 }
        ensures here { at self.new.heads side ≡ v }
        ensures slot { self.new ≡ record { key = self.old.key; value = self.old.value; heads = slice_set self.old.heads side v; next = self.old.next; marks = self.old.marks } }
    {
        self.heads[side] = v;
    }

    pub(crate) fn set_marks(&mut self, side: usize, v: u8)
        requires { side < 2 }
        ensures here { at self.new.marks side ≡ v }
        ensures slot { self.new ≡ record { key = self.old.key; value = self.old.value; heads = self.old.heads; next = self.old.next; marks = slice_set self.old.marks side v } }
    {
        self.marks[side] = v;
    }

    // Empties both buckets.
    pub(crate) fn vacate(&mut self)
        ensures { self.new.heads ≡ none ∷ none ∷ [] }
    {
        self.heads = [NONE as u16; 2];
        self.marks = [0; 2];
    }
}

// The place that a link leads to; none at the end of a chain.
pub(crate) fn place_of(link: usize) -> Option<usize>
    ensures { result ≡ place_of link }
{
    (link != NONE).then_some(link)
}
