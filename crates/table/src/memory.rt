ghost use Rattle.std.specs.Prelude.{◌≡◌, ◌/◌, ◌<◌, ◌≤◌, length, take, slice_index_or, slice_set};
ghost use Rattle.table.specs.Slots.{pairs, nexts, headed, marked, at, two, TwoSet};
ghost use Rattle.table.specs.Index.{capacity_of, Emptied};

use crate::slot::{NONE, Slot};
use std::marker::Model;

// The slots that were lent, with what each has by its place or its bucket.
#[derive(Drop)]
pub(crate) struct Memory<'a, K, V> {
    pub(crate) slots: &'a mut [Slot<K, V>],
}

// Clauses see the list of the slots.
impl<'a, K, V> Model for Memory<'a, K, V> {
    ghost use Rattle.std.specs.Prelude.{List};
    ghost use Rattle.table.specs.declared.slot.Slot.{Slot};

    ghost Value = { List (Slot K V) };

    ghost view = { λ m. m.slots.now };
}

impl<'a, K: Copy, V: Copy> Memory<'a, K, V> {
    // The memory of an empty table: every bucket is emptied.
    pub(crate) fn emptied(slots: &'a mut [Slot<K, V>]) -> Self
        ensures empty { Emptied result }
        ensures room { capacity_of result ≡ capacity_of slots.old }
    {
        let used = slots.len().min(NONE);
        for slot in &mut slots[..used] {
            slot.vacate();
        }
        Memory { slots }
    }

    // At most as many entries as a link can name.
    pub(crate) fn capacity(&self) -> usize
        ensures { result ≡ capacity_of self.now }
    {
        self.slots.len().min(NONE)
    }

    // The slots of the first `n` places.
    pub(crate) fn first(&self, n: usize) -> &[Slot<K, V>]
        requires { n ≤ length self.now }
        ensures { result.now ≡ take n self.now }
    {
        &self.slots[..n]
    }

    // The first place of bucket `b`.
    pub(crate) fn head_of(&self, b: usize) -> usize
        requires { b / 2 < length self.now }
        ensures value { result ≡ two (headed self.now) b }
        ensures fits { result ≤ 65535 }
    {
        let slots: &[Slot<K, V>] = self.slots;
        slots[b / 2].heads[b % 2] as usize
    }

    pub(crate) fn marks_of(&self, b: usize) -> u8
        requires { b / 2 < length self.now }
        ensures { result ≡ two (marked self.now) b }
    {
        let slots: &[Slot<K, V>] = self.slots;
        slots[b / 2].marks[b % 2]
    }

    pub(crate) fn next_of(&self, i: usize) -> usize
        requires { i < length self.now }
        ensures value { result ≡ at (nexts self.now) i }
        ensures fits { result ≤ 65535 }
    {
        let slots: &[Slot<K, V>] = self.slots;
        slots[i].next as usize
    }

    // The key at place `i`, where it lies.
    pub(crate) fn key(&self, i: usize) -> &K
        requires { i < length self.now }
        ensures { (d : K × V) → result.now ≡ (slice_index_or (pairs self.now) i d).0 }
    {
        let slots: &[Slot<K, V>] = self.slots;
        &slots[i].key
    }

    pub(crate) fn key_of(&self, i: usize) -> K
        requires { i < length self.now }
        ensures { (d : K × V) → result ≡ (slice_index_or (pairs self.now) i d).0 }
    {
        *self.key(i)
    }

    pub(crate) fn value_of(&self, i: usize) -> V
        requires { i < length self.now }
        ensures { (d : K × V) → result ≡ (slice_index_or (pairs self.now) i d).1 }
    {
        let slots: &[Slot<K, V>] = self.slots;
        slots[i].value
    }

    pub(crate) fn set_head(&mut self, b: usize, v: usize)
        requires within { b / 2 < length self.old }
        requires fits { v ≤ 65535 }
        ensures heads { TwoSet b v (headed self.old) (headed self.new) }
        ensures marks { marked self.new ≡ marked self.old }
        ensures next { nexts self.new ≡ nexts self.old }
        ensures pair { pairs self.new ≡ pairs self.old }
    {
        let slots: &mut [Slot<K, V>] = self.slots;
        slots[b / 2].set_head(b % 2, v as u16);
    }

    pub(crate) fn set_marks(&mut self, b: usize, v: u8)
        requires { b / 2 < length self.old }
        ensures heads { headed self.new ≡ headed self.old }
        ensures marks { TwoSet b v (marked self.old) (marked self.new) }
        ensures next { nexts self.new ≡ nexts self.old }
        ensures pair { pairs self.new ≡ pairs self.old }
    {
        let slots: &mut [Slot<K, V>] = self.slots;
        slots[b / 2].set_marks(b % 2, v);
    }

    pub(crate) fn set_next(&mut self, i: usize, v: usize)
        requires within { i < length self.old }
        requires fits { v ≤ 65535 }
        ensures heads { headed self.new ≡ headed self.old }
        ensures marks { marked self.new ≡ marked self.old }
        ensures next { nexts self.new ≡ slice_set (nexts self.old) i v }
        ensures pair { pairs self.new ≡ pairs self.old }
    {
        let slots: &mut [Slot<K, V>] = self.slots;
        slots[i].next = v as u16;
    }

    pub(crate) fn set_pair(&mut self, i: usize, k: K, v: V)
        requires { i < length self.old }
        ensures heads { headed self.new ≡ headed self.old }
        ensures marks { marked self.new ≡ marked self.old }
        ensures next { nexts self.new ≡ nexts self.old }
        ensures pair { pairs self.new ≡ slice_set (pairs self.old) i (k, v) }
    {
        let slots: &mut [Slot<K, V>] = self.slots;
        let slot = &mut slots[i];
        slot.key = k;
        slot.value = v;
    }
}
