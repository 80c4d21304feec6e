ghost use Rattle.std.specs.Prelude.{◌≡◌, ℕ};
ghost use Rattle.std.proofs.Common.{rules};
ghost use Rattle.keys.specs.Hashes.{spread_of, fold_of, packed_of, seat_hash, pair_hash};
ghost use Rattle.keys.specs.Nodes.{by_number, by_both, by_seat};
ghost use Rattle.keys.specs.Laws.{number_laws, pair_laws, both_by};

pub use crate::order::{Compare, NodeTrait, OrdByValue, same};
use std::cmp::Ordering;
use std::fmt;

/// An account by its number.
#[derive(Clone, Copy, PartialEq, Eq, PartialOrd, Ord, Debug)]
pub struct Account(pub u32);

impl Compare for Account {
    ghost Value = { ℕ };

    ghost value = { λ a. a.0 };

    ghost order = { by_number };

    ghost ordered = { number_laws };

    fn compare(&self, other: &Account) -> Ordering {
        self.0.cmp(&other.0)
    }
}

impl OrdByValue for Account {
    ghost compares = { Prim.search rules };
}

impl NodeTrait for Account {
    ghost hashed = { λ a. spread_of a.0 };

    fn hash(&self) -> u64 {
        spread(u64::from(self.0))
    }
}

/// A seat of a hall. Seats go by row, then by section, then by number.
#[derive(Clone, Copy, PartialEq, Eq, PartialOrd, Ord)]
pub struct Seat {
    pub row: u8,
    pub section: u8,
    pub number: u16,
}

// By hand: a seat is shown by its section first, and ordered by its row first.
impl fmt::Debug for Seat {
    fn fmt<W: fmt::Write>(&self, f: &mut fmt::Formatter<W>) -> fmt::Result {
        f.debug_struct("Seat")
            .field("section", &self.section)
            .field("row", &self.row)
            .field("number", &self.number)
            .finish()
    }
}

impl Seat {
    // The row, the section and the number as one number.
    fn packed(self) -> u64
        ensures { result ≡ packed_of self.row self.section self.number }
    {
        (u64::from(self.row) * 0x100 + u64::from(self.section)) * 0x1_0000 + u64::from(self.number)
    }
}

impl Compare for Seat {
    ghost Value = { ℕ × (ℕ × ℕ) };

    ghost value = { λ s. (s.row, (s.section, s.number)) };

    ghost order = { by_seat };

    ghost ordered = { pair_laws by_number (by_both by_number by_number) number_laws (pair_laws by_number by_number number_laws number_laws) };

    fn compare(&self, other: &Seat) -> Ordering {
        self.cmp(other)
    }
}

impl OrdByValue for Seat {
    ghost compares = { Prim.search rules };
}

impl NodeTrait for Seat {
    ghost hashed = { λ s. seat_hash s.row s.section s.number };

    fn hash(&self) -> u64 {
        fold(spread(self.packed()))
    }
}

/// Two keys together are a key: the first parts are compared, and the second where those are equal.
impl<A: Compare, B: Compare> Compare for (A, B) {
    ghost Value = { A.Value × B.Value };

    ghost value = { λ p. (A.value p.0, B.value p.1) };

    ghost order = { by_both A.order B.order };

    ghost ordered = { pair_laws A.order B.order A.ordered B.ordered };

    fn compare(&self, other: &(A, B)) -> Ordering {
        match self.0.compare(&other.0) {
            Ordering::Equal => self.1.compare(&other.1),
            decided => decided,
        }
    }
}

impl<A: OrdByValue, B: OrdByValue> OrdByValue for (A, B) {
    ghost compares = { λ p q. both_by (A.compares p.0 q.0) (B.compares p.1 q.1) };
}

impl<A: NodeTrait, B: NodeTrait> NodeTrait for (A, B) {
    ghost hashed = { λ p. pair_hash (A.hashed p.0) (B.hashed p.1) };

    fn hash(&self) -> u64 {
        fold(self.0.hash().rotate_left(29) ^ self.1.hash())
    }
}

// 2 ^ 64 divided by the golden ratio, without the fraction.
const GOLDEN: u64 = 0x9E37_79B9_7F4A_7C15;

// Spreads consecutive numbers over the upper bits.
fn spread(x: u64) -> u64
    ensures { result ≡ spread_of x }
{
    x.wrapping_mul(GOLDEN)
}

// Spreads what is spread already. The upper half is joined to the lower first, since a product of a
// product is one product.
fn fold(x: u64) -> u64
    ensures { result ≡ fold_of x }
{
    spread(x ^ (x >> 32))
}
