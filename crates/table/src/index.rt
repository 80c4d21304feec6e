ghost use Rattle.std.specs.Prelude.{◌≡◌, ℕ, ◌+◌, ◌-◌, ◌*◌, ◌<◌, ◌≤◌, length, take, slice_index_or, slice_set};
ghost use Rattle.lists.specs.Swap.{swap_removed};
ghost use Rattle.table.specs.Slots.{pairs, marked, SameEntries};
ghost use Rattle.table.specs.Index.{capacity_of, home, mark, InBucket, Chained, Indexed, Emptied};
ghost use Rattle.table.specs.Searches.{Located};
ghost use Rattle.table.specs.Tables.{vacancy};

use crate::memory::Memory;
use crate::slot::{NONE, place_of};
use crate::table::Vacancy;
use keys::nodes::{NodeTrait, same};

// The bucket of a hash, by its upper half: no division.
fn home_of(hash: u64, capacity: usize) -> usize
    requires { capacity ≤ 65535 }
    ensures { result ≡ home capacity hash }
{
    ((hash >> 32) * (2 * capacity as u64) >> 32) as usize
}

// The number of a hash's bit among the eight marks of its bucket.
fn mark_of(hash: u64) -> u8
    ensures { result ≡ mark hash }
{
    ((hash >> 29) % 8) as u8
}

// Where a key of this hash would go.
pub(crate) fn vacancy_of(hash: u64, capacity: usize) -> Vacancy
    requires { capacity ≤ 65535 }
    ensures { result ≡ vacancy capacity hash }
{
    Vacancy {
        home: home_of(hash, capacity),
        mark: mark_of(hash),
    }
}

impl<'a, K: NodeTrait, V: Copy> Memory<'a, K, V> {
    // The bucket of the key at place `i`.
    fn home_at(&self, i: usize) -> usize
        requires { i < capacity_of self.now }
        ensures { InBucket K.hashed self.now i result }
    {
        home_of(self.key_of(i).hash(), self.capacity())
    }

    // Empties the buckets of the first `len` places. A place's bucket lies at another place.
    pub(crate) fn release(&mut self, len: usize)
        requires { Indexed K.hashed self.old len }
        ensures empty { Emptied self.new }
        ensures room { capacity_of self.new ≡ capacity_of self.old }
    {
        for i in 0..len {
            let b = self.home_at(i);
            self.set_head(b, NONE);
            self.set_marks(b, 0);
        }
    }

    // The place of the key with `k`'s value, by the chain of its bucket `b`.
    fn trace(&self, len: usize, k: &K, b: usize) -> Option<usize>
        requires indexed { Indexed K.hashed self.now len }
        requires bucket { b < 2 * capacity_of self.now }
        requires hashed { (j : K) → K.value j ≡ K.value k.now → home (capacity_of self.now) (K.hashed j) ≡ b }
        ensures { Located K.value (take len (pairs self.now)) k.now result }
    {
        // No iterator, as in `above`.
        let mut at = place_of(self.head_of(b));
        while let Some(i) = at {
            if same(self.key(i), k) {
                return Some(i);
            }
            at = place_of(self.next_of(i));
        }
        None
    }

    // The place among the first `len` of the key with `k`'s value. Most absent keys are told by the marks.
    pub(crate) fn seek(&self, len: usize, k: &K, w: Vacancy) -> Option<usize>
        requires indexed { Indexed K.hashed self.now len }
        requires bucket { w.home < 2 * capacity_of self.now }
        requires hashed { (j : K) → K.value j ≡ K.value k.now → vacancy (capacity_of self.now) (K.hashed j) ≡ w }
        ensures { Located K.value (take len (pairs self.now)) k.now result }
    {
        if (self.marks_of(w.home) >> w.mark) % 2 == 0 {
            return None;
        }
        self.trace(len, k, w.home)
    }

    // Puts an entry past the first `len`: it becomes the head of its bucket.
    pub(crate) fn enter(&mut self, len: usize, k: K, v: V, w: Vacancy)
        requires room { len < capacity_of self.old }
        requires indexed { Indexed K.hashed self.old len }
        requires bucket { w.home < 2 * capacity_of self.old }
        requires hashed { w ≡ vacancy (capacity_of self.old) (K.hashed k) }
        ensures indexed { Indexed K.hashed self.new (len + 1) }
        ensures pair { pairs self.new ≡ slice_set (pairs self.old) len (k, v) }
    {
        self.set_pair(len, k, v);
        let head = self.head_of(w.home);
        self.set_next(len, head);
        self.set_head(w.home, len);
        let marks = self.marks_of(w.home);
        self.set_marks(w.home, marks | 1 << w.mark);
    }

    // Takes the last place out of its bucket `b`, whose head it is.
    fn detach(&mut self, last: usize, b: usize)
        requires fits { last < capacity_of self.old }
        requires bucket { InBucket K.hashed self.old last b }
        requires chained { Chained K.hashed self.old (last + 1) }
        ensures chained { Chained K.hashed self.new last }
        ensures entries { SameEntries self.old self.new }
    {
        let after = self.next_of(last);
        self.set_head(b, after);
    }

    // Puts the entry at `last`, which has left its bucket `b`, at the place `g` of bucket `gone`.
    fn relocate(&mut self, last: usize, b: usize, g: usize, gone: usize)
        requires fits { last < capacity_of self.old }
        requires bucket { InBucket K.hashed self.old last b }
        requires place { g < last }
        requires old_bucket { InBucket K.hashed self.old g gone }
        requires chained { Chained K.hashed self.old last }
        ensures chained { Chained K.hashed self.new last }
        ensures marks { marked self.new ≡ marked self.old }
        ensures pair { (d : K × V) → pairs self.new ≡ slice_set (pairs self.old) g (slice_index_or (pairs self.old) last d) }
    {
        self.unlink(last, gone, g);
        let k = self.key_of(last);
        let v = self.value_of(last);
        self.set_pair(g, k, v);
        self.link(last, b, g);
    }

    // Clears the marks of a bucket that has become empty.
    fn tidy(&mut self, n: usize, b: usize)
        requires indexed { Indexed K.hashed self.old n }
        requires bucket { b < 2 * capacity_of self.old }
        ensures indexed { Indexed K.hashed self.new n }
        ensures pair { pairs self.new ≡ pairs self.old }
    {
        if self.head_of(b) == NONE {
            self.set_marks(b, 0);
        }
    }

    // Takes the entry at `g` out of the first `len`: the last one is put in its place.
    pub(crate) fn extract(&mut self, len: usize, g: usize)
        requires indexed { Indexed K.hashed self.old len }
        requires place { g < len }
        ensures indexed { Indexed K.hashed self.new (len - 1) }
        ensures room { capacity_of self.new ≡ capacity_of self.old }
        ensures entries { take (len - 1) (pairs self.new) ≡ swap_removed (take len (pairs self.old)) g }
    {
        let last = len - 1;
        let gone = self.home_at(g);
        let b = self.home_at(last);
        self.detach(last, b);
        if g == last {
            self.tidy(last, gone);
            return;
        }
        self.relocate(last, b, g, gone);
        self.tidy(last, gone);
    }
}
