ghost use Rattle.std.specs.Prelude.{◌≡◌, ℕ, ◌/◌};
ghost use Rattle.keys.specs.Nodes.{by_number};
ghost use Rattle.keys.specs.Laws.{number_laws};

use crate::reads::*;
use crate::slot::*;
use crate::table::*;
use keys::nodes::*;
use keys::order::*;
use keys::weights::*;
use std::cmp::Ordering;
use std::test::Fail;

// A key whose value is coarser than its bits: 2 and 3 are the same key.
#[derive(Clone, Copy, PartialEq, Eq, Debug)]
struct Half(u8);

impl Compare for Half {
    ghost Value = { ℕ };

    ghost value = { λ h. h.0 / 2 };

    ghost order = { by_number };

    ghost ordered = { number_laws };

    fn compare(&self, other: &Half) -> Ordering {
        (self.0 / 2).cmp(&(other.0 / 2))
    }
}

impl NodeTrait for Half {
    ghost hashed = { λ h. h.0 / 2 };

    fn hash(&self) -> u64 {
        u64::from(self.0 / 2)
    }
}

#[test]
fn the_first_of_two_keys_of_one_value_is_kept(rt: HostRuntime) -> Result<(), Fail> {
    let mut memory = [Slot::new(Half(9), Price(9)); 3];
    let mut t = Table::new(&mut memory);
    for h in [Half(2), Half(3), Half(7)] {
        match t.find(&h) {
            Ok(i) => assert_eq!(rt; t.set_value(i, Price(u32::from(h.0))), Some(Price(2))),
            Err(w) => assert!(rt; t.append(h, Price(u32::from(h.0)), w).is_some()),
        }
    }
    assert!(rt; t.len() == 2);
    assert_eq!(rt; t.key_at(0), Half(2));
    assert_eq!(rt; t.value_at(0), Price(3));
    assert_eq!(rt; t.key_at(1), Half(7));
    Ok(())
}

#[test]
fn the_last_entry_fills_the_gap(rt: HostRuntime) -> Result<(), Fail> {
    let mut memory = [Slot::new(Account(0), Price(0)); 3];
    let mut t = Table::new(&mut memory);
    for n in 1..5 {
        if let Err(w) = t.find(&Account(n)) {
            assert_eq!(rt; t.append(Account(n), Price(n * 10), w).is_some(), n < 4);
        }
    }
    let taken = t.swap_remove(0).ok_or("no entry")?;
    assert_eq!(rt; taken.entry, (Account(1), Price(10)));
    assert_eq!(rt; (taken.last, taken.gap), (2, 0));
    assert!(rt; t.len() == 2);
    assert_eq!(rt; t.key_at(0), Account(3));
    assert!(rt; t.find(&Account(1)).is_err());
    t.clear();
    assert!(rt; t.len() == 0);
    assert!(rt; t.find(&Account(3)).is_err());
    Ok(())
}

#[test]
fn a_memory_of_no_slots(rt: HostRuntime) {
    let mut memory: [Slot<Account, Price>; 0] = [];
    let mut t = Table::new(&mut memory);
    assert!(rt; t.capacity() == 0);
    if let Err(w) = t.find(&Account(7)) {
        assert!(rt; t.append(Account(7), Price(1), w).is_none());
    }
    assert!(rt; t.swap_remove(0).is_none());
}
