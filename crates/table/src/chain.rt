ghost use Rattle.std.specs.Prelude.{◌≡◌, ℕ, ◌*◌, ◌/◌, ◌<◌, ◌≤◌, length};
ghost use Rattle.lists.specs.Chains.{Above, Put};
ghost use Rattle.table.specs.Slots.{nexts, headed, at, two, SameEntries};
ghost use Rattle.table.specs.Index.{capacity_of, bucket_of, held, InBucket, Chained, ChainedOff, ChainedBut};

use crate::memory::Memory;
use crate::slot::place_of;
use keys::nodes::NodeTrait;

impl<'a, K: NodeTrait, V: Copy> Memory<'a, K, V> {
    // The smallest place past `g` in bucket `b`, or `n`: what holds the link to `g`, or would.
    fn above(&self, n: usize, b: usize, g: usize) -> usize
        requires chained { ChainedBut K.hashed self.now n g }
        requires small { n ≤ capacity_of self.now }
        requires bucket { b < 2 * capacity_of self.now }
        requires place { g < n }
        ensures { Above n (bucket_of K.hashed self.now) b g result }
    {
        // No iterator: that the places fall, so that it ends, is told by the index and not by a type.
        let mut p = n;
        let mut at = place_of(self.head_of(b));
        while let Some(i) = at {
            if i <= g {
                return p;
            }
            p = i;
            at = place_of(self.next_of(i));
        }
        p
    }

    // Writes `v` at the holder `p` of bucket `b`: the head where `p` is `n`.
    fn put(&mut self, n: usize, b: usize, p: usize, v: usize)
        requires small { n ≤ length self.old }
        requires bucket { b / 2 < length self.old }
        requires holder { p ≤ n }
        requires fits { v ≤ 65535 }
        ensures put { Put n b p v (two (headed self.old)) (at (nexts self.old)) (two (headed self.new)) (at (nexts self.new)) }
        ensures entries { SameEntries self.old self.new }
    {
        if p == n {
            self.set_head(b, v);
        } else {
            self.set_next(p, v);
        }
    }

    // The link that the holder `p` of bucket `b` has.
    fn holds(&self, n: usize, b: usize, p: usize) -> usize
        requires small { n ≤ length self.now }
        requires bucket { b / 2 < length self.now }
        requires holder { p ≤ n }
        ensures value { result ≡ held n (two (headed self.now)) (at (nexts self.now)) b p }
        ensures fits { result ≤ 65535 }
    {
        if p == n {
            self.head_of(b)
        } else {
            self.next_of(p)
        }
    }

    // Takes place `g` out of its bucket `b`.
    pub(crate) fn unlink(&mut self, n: usize, b: usize, g: usize)
        requires chained { Chained K.hashed self.old n }
        requires small { n ≤ capacity_of self.old }
        requires place { g < n }
        requires bucket { InBucket K.hashed self.old g b }
        ensures chained { ChainedOff K.hashed self.new n g }
        ensures entries { SameEntries self.old self.new }
    {
        let p = self.above(n, b, g);
        let v = self.next_of(g);
        self.put(n, b, p, v);
    }

    // Puts place `g`, which is in no chain, into that of its bucket `b`.
    pub(crate) fn link(&mut self, n: usize, b: usize, g: usize)
        requires chained { ChainedOff K.hashed self.old n g }
        requires small { n ≤ capacity_of self.old }
        requires place { g < n }
        requires bucket { InBucket K.hashed self.old g b }
        ensures chained { Chained K.hashed self.new n }
        ensures entries { SameEntries self.old self.new }
    {
        let p = self.above(n, b, g);
        let v = self.holds(n, b, p);
        self.set_next(g, v);
        self.put(n, b, p, g);
    }
}
