use crate::edges::*;
use crate::nodes::*;
use crate::refusals::*;
use crate::weights::*;
use std::alloc::AllocError;
use std::cmp::Ordering;

fn seat(row: u8, section: u8, number: u16) -> Seat {
    Seat {
        section,
        row,
        number,
    }
}

#[test]
fn seats_go_by_row_then_section_then_number(rt: HostRuntime) {
    let here = seat(2, 5, 7);
    assert_eq!(rt; here.compare(&seat(3, 1, 1)), Ordering::Less);
    assert_eq!(rt; here.compare(&seat(2, 4, 9)), Ordering::Greater);
    assert_eq!(rt; here.compare(&seat(2, 5, 8)), Ordering::Less);
    assert!(rt; same(&here, &seat(2, 5, 7)));
    assert_eq!(rt; here.cmp(&seat(3, 1, 1)), Ordering::Less);
    assert_eq!(rt; here.cmp(&seat(2, 4, 9)), Ordering::Greater);
    assert_eq!(rt; here.cmp(&seat(2, 5, 8)), Ordering::Less);
    assert!(rt; here == seat(2, 5, 7));
}

#[test]
fn pairs_go_by_the_first_then_the_second(rt: HostRuntime) {
    let pair = (Account(4), Account(6));
    assert_eq!(rt; pair.compare(&(Account(5), Account(0))), Ordering::Less);
    assert_eq!(rt; pair.compare(&(Account(4), Account(5))), Ordering::Greater);
    assert!(rt; same(&pair, &(Account(4), Account(6))));
    assert_eq!(rt; pair.cmp(&(Account(5), Account(0))), Ordering::Less);
    assert_eq!(rt; pair.cmp(&(Account(4), Account(5))), Ordering::Greater);
    assert!(rt; pair == (Account(4), Account(6)));
    assert_ne!(rt; pair.hash(), (Account(6), Account(4)).hash());
}

#[test]
fn links_have_default_weights(rt: HostRuntime) {
    let (_, _, price): (u8, u8, Price) = (1, 2).into_weighted_edge();
    assert_eq!(rt; price, Price(0));
    let (_, _, listing): (u8, u8, Listing) = (1, 2).into_weighted_edge();
    assert_eq!(rt; listing.number, 0);
    assert_eq!(rt; listing.price, Price(0));
    let (_, _, given) = (1, 2, Price(250)).into_weighted_edge();
    assert_eq!(rt; given, Price(250));
}

#[test]
fn a_seat_is_shown_by_its_section_first(rt: HostRuntime) -> Result<(), AllocError> {
    let shown = format!(in rt.alloc(); "{:?}", seat(2, 1, 3))?;
    assert!(rt; shown.as_str() == "Seat { section: 1, row: 2, number: 3 }");
    Ok(())
}

#[test]
fn refusals_have_numbers(rt: HostRuntime) {
    assert_eq!(rt; Refusal::LinksFull as u8, 0);
    assert_eq!(rt; Refusal::LinksFull.number(), 1);
    assert_eq!(rt; Refusal::PastCount.number(), 5);
    assert_eq!(rt; Refusal::InputTooLong.number(), 13);
}
