//! The marks at the borders of the epoch and of the limit.
use super::*;

#[test]
fn the_last_epoch_is_left_with_no_mark(rt: HostRuntime) -> Result<(), AllocError> {
    let mut slot = Slot::with_epoch(rt.alloc(), 4294967295, 8)?;
    assert!(rt; !slot.seen(3));
    assert!(rt; slot.mark(3));
    assert!(rt; !slot.mark(3));
    assert!(rt; slot.seen(3));
    slot.begin(8)?;
    assert_eq!(rt; slot.epoch, 1);
    for id in 0..8 {
        assert!(rt; !slot.seen(id), "at {id}");
    }
    Ok(())
}

#[test]
fn each_search_begins_with_no_mark(rt: HostRuntime) -> Result<(), AllocError> {
    let mut slot = Slot::new(rt.alloc());
    for (limit, epoch) in [(2, 2), (5, 3), (3, 4)] {
        slot.begin(limit)?;
        assert_eq!(rt; slot.epoch, epoch);
        assert!(rt; slot.mark(1), "at {limit}");
        assert!(rt; slot.seen(1), "at {limit}");
        assert!(rt; !slot.seen(0), "at {limit}");
    }
    Ok(())
}
