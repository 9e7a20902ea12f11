//! A gate that holds whoever comes to one place until it is let go, or until it has waited for long.
use std::hint::spin_loop;
use std::sync::atomic::{AtomicU64, Ordering};
use vs_outside::{Gate, Place};

/// So many turns are waited at most.
const TURNS: u32 = 100_000_000;

/// How many came to the place, and whether one of them waited in vain.
#[derive(Drop)]
pub struct Holding {
    place: Place,
    // How many have to come before all are let go.
    least: u64,
    arrived: AtomicU64,
    late: AtomicU64,
}

// Whether the count comes to `least` in time.
fn comes_to(count: &AtomicU64, least: u64) -> bool {
    for _ in 0..TURNS {
        if count.load(Ordering::SeqCst) >= least {
            return true;
        }
        spin_loop();
    }
    false
}

impl Holding {
    /// Holds at this place until so many have come. One that is to be let go from outside counts as one more.
    pub fn new(place: Place, least: u64) -> Holding {
        Holding {
            place,
            least,
            arrived: AtomicU64::new(0),
            late: AtomicU64::new(0),
        }
    }

    /// Counts as one more that has come.
    pub fn let_go(&self) {
        let _before = self.arrived.fetch_add(1, Ordering::SeqCst);
    }

    /// Whether so many come in time.
    pub fn is_reached_by(&self, many: u64) -> bool {
        comes_to(&self.arrived, many)
    }

    /// Whether none that came to the place waited in vain, and so many have come in all.
    pub fn held(&self) -> bool {
        self.late.load(Ordering::SeqCst) == 0 && self.arrived.load(Ordering::SeqCst) == self.least
    }
}

impl Gate for Holding {
    fn at(&self, place: Place) {
        if place != self.place {
            return;
        }
        let _before = self.arrived.fetch_add(1, Ordering::SeqCst);
        if !comes_to(&self.arrived, self.least) {
            let _before = self.late.fetch_add(1, Ordering::SeqCst);
        }
    }
}
