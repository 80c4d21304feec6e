ghost use Rattle.std.specs.Prelude.{◌≡◌, min, [], length, Err as Vacant};
ghost use Rattle.table.specs.Tables.{sought, appended, replaced, taken};

use crate::index::vacancy_of;
use crate::memory::Memory;
use crate::slot::Slot;
use keys::nodes::NodeTrait;
use std::marker::Model;

/// A hash table over a lent memory: a list of entries whose keys differ by value.
#[derive(Drop)]
pub struct Table<'a, K: NodeTrait, V: Copy> {
    pub(crate) memory: Memory<'a, K, V>,
    pub(crate) len: usize,
}

// Clauses see the entries, and how many there is room for.
impl<'a, K: NodeTrait, V: Copy> Model for Table<'a, K, V> {
    ghost use Rattle.table.specs.Content.{Content, content, Sound};

    ghost Value = { Content K V };

    ghost view = { λ t. content t.len t.memory };

    ghost invariant = { λ t. Sound K.value K.hashed t.len t.memory };
}

/// Where a key that was not found would go.
#[derive(Clone, Copy)]
pub struct Vacancy {
    pub(crate) home: usize,
    pub(crate) mark: u8,
}

/// What a swap removal took out: the entry, the place that was the last, and the place that it left.
#[derive(Clone, Copy)]
pub struct Taken<K, V> {
    pub entry: (K, V),
    pub last: usize,
    pub gap: usize,
}

impl<'a, K: NodeTrait, V: Copy> Table<'a, K, V> {
    /// An empty table over a memory of any length; what the memory holds does not count.
    pub fn new(slots: &'a mut [Slot<K, V>]) -> Self
        ensures entries { result.entries ≡ [] }
        ensures room { result.room ≡ min (length slots.old) 65535 }
    {
        Table {
            memory: Memory::emptied(slots),
            len: 0,
        }
    }

    /// The place of the entry whose key has `k`'s value, or where such a key would go.
    pub fn find(&self, k: &K) -> Result<usize, Vacancy>
        ensures { result ≡ sought K.order K.value K.hashed self.now.room self.now.entries k.now }
    {
        let w = vacancy_of(k.hash(), self.memory.capacity());
        if self.len == 0 {
            return Err(w);
        }
        self.memory.seek(self.len, k, w).ok_or(w)
    }

    /// Puts another value at a place, and answers the old one. None where there is no such place.
    pub fn set_value(&mut self, i: usize, v: V) -> Option<V>
        ensures done { (result, self.new.entries) ≡ replaced self.old.entries i v }
        ensures room { self.new.room ≡ self.old.room }
    {
        let slot = self.as_slice().get(i)?;
        let (k, old) = (slot.key, slot.value);
        self.memory.set_pair(i, k, v);
        Some(old)
    }

    /// Puts an entry at the end and answers its place. None where there is no room.
    /// `w` is what the search for the key answered.
    pub fn append(&mut self, k: K, v: V, w: Vacancy) -> Option<usize>
        requires absent { sought K.order K.value K.hashed self.old.room self.old.entries k ≡ Vacant w }
        ensures done { (result, self.new.entries) ≡ appended self.old.room self.old.entries (k, v) }
        ensures room { self.new.room ≡ self.old.room }
    {
        let len = self.len;
        if len >= self.capacity() {
            return None;
        }
        self.memory.enter(len, k, v, w);
        self.len = len + 1;
        Some(len)
    }

    /// Takes the entry at a place out, puts the last entry there, and answers what was taken.
    /// None where there is no such place.
    pub fn swap_remove(&mut self, i: usize) -> Option<Taken<K, V>>
        ensures done { (result, self.new.entries) ≡ taken self.old.entries i }
        ensures room { self.new.room ≡ self.old.room }
    {
        let len = self.len;
        // Not by `get`, with which a removal takes a fifth longer.
        if i >= len {
            return None;
        }
        let entry = (self.key_at(i), self.value_at(i));
        let last = len - 1;
        self.memory.extract(len, i);
        self.len = last;
        Some(Taken {
            entry,
            last,
            gap: i,
        })
    }

    /// Takes every entry out.
    pub fn clear(&mut self)
        ensures entries { self.new.entries ≡ [] }
        ensures room { self.new.room ≡ self.old.room }
    {
        self.memory.release(self.len);
        self.len = 0;
    }
}
