ghost use Rattle.std.specs.Prelude.{◌≡◌, ℕ};
ghost use Rattle.std.specs.declared.cmp.Ordering.{Ordering as Compared};
ghost use Rattle.keys.specs.Order.{Laws, alike};

use std::cmp::Ordering;

/// Keys by their values: two keys of one value are the same key, however they are represented.
pub trait Compare: Copy {
    ghost Value: { Type 0 };

    ghost value: { Self → Value };

    ghost order: { Value → Value → Compared };

    fn compare(&self, other: &Self) -> Ordering
        ensures { result ≡ order (value self.now) (value other.now) };

    ghost ordered: { Laws order };
}

/// What a node of a map is: a key with a hash that depends on its value alone.
pub trait NodeTrait: Compare {
    ghost hashed: { Self → ℕ };

    fn hash(&self) -> u64
        ensures { (k : Self) → Self.value k ≡ Self.value self.now → hashed k ≡ result };
}

/// A key whose `Ord` goes by its value: `cmp` answers what `compare` does, and `==` what `same` does.
pub trait OrdByValue: Compare + Ord {
    ghost compares: { (a b : Self) → Self.cmp a b ≡ Self.order (Self.value a) (Self.value b) };
}

/// Whether two keys have the same value.
pub fn same<K: Compare>(a: &K, b: &K) -> bool
    ensures { result ≡ alike K.order (K.value a.now) (K.value b.now) }
{
    a.compare(b).is_eq()
}
