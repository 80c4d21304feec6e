ghost use Rattle.std.specs.Prelude.{◌≡◌, ◌<◌, ◌≤◌, length, slice_index_or};
ghost use Rattle.table.specs.Content.{Apart};
ghost use Rattle.table.specs.Slots.{pairs};

use crate::slot::Slot;
use crate::table::Table;
use keys::nodes::NodeTrait;

impl<'a, K: NodeTrait, V: Copy> Table<'a, K, V> {
    /// How many entries there are.
    pub fn len(&self) -> usize
        ensures { result ≡ length self.now.entries }
    {
        self.len
    }

    /// How many entries there is room for: as many as the memory has slots, and at most 65,535.
    pub fn capacity(&self) -> usize
        ensures room { result ≡ self.now.room }
        ensures most { self.now.room ≤ 65535 }
    {
        self.memory.capacity()
    }

    /// The slots of the entries, by place. They fit, and no two of their keys have one value.
    pub fn as_slice(&self) -> &[Slot<K, V>]
        ensures entries { pairs result.now ≡ self.now.entries }
        ensures fits { length self.now.entries ≤ self.now.room }
        ensures most { self.now.room ≤ 65535 }
        ensures apart { Apart K.value self.now.entries }
    {
        self.memory.first(self.len)
    }

    /// The key at a place.
    pub fn key_at(&self, i: usize) -> K
        requires place { i < length self.now.entries }
        ensures { (d : K × V) → result ≡ (slice_index_or self.now.entries i d).0 }
    {
        self.memory.key_of(i)
    }

    /// The value at a place.
    pub fn value_at(&self, i: usize) -> V
        requires place { i < length self.now.entries }
        ensures { (d : K × V) → result ≡ (slice_index_or self.now.entries i d).1 }
    {
        self.memory.value_of(i)
    }
}
