//! Tickets of two seats.
use crate::{deal, draw, gather, learn, open};
use std::test::Fail;

#[test]
fn three_tickets_of_five_are_below_the_limit(rt: HostRuntime) -> Result<(), Fail> {
    let (word, mut maker) = open(rt.alloc(), 3)?;
    let mut one = deal(&word, &mut maker);
    let mut other = deal(&word, &mut maker);
    assert!(rt; draw(&word, &mut one, 3));
    assert!(rt; draw(&word, &mut other, 3));
    assert!(rt; draw(&word, &mut other, 3));
    assert!(rt; !draw(&word, &mut one, 3));
    assert!(rt; !draw(&word, &mut other, 3));
    gather(&word, &mut maker, one);
    gather(&word, &mut maker, other);
    assert_eq!(rt; learn(&word, &mut maker), 5);
    Ok(())
}
