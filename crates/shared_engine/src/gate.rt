//! Gates, at which a builder stops before it builds a year.
use std::sync::atomic::{AtomicU64, Ordering};
use std::thread;

/// Where a builder stops before it builds a year. It returns, and nothing is said of when.
pub trait Gate {
    fn arrive(&self, year: i32);
}

/// Lets every builder through at once.
#[derive(Clone, Copy)]
pub struct OpenGate;

impl Gate for OpenGate {
    fn arrive(&self, _year: i32) {}
}

/// Holds each builder until so many have arrived, or until it has waited so many turns. It counts those that arrived, and those that
/// went on before enough had.
#[derive(Drop)]
pub struct Meeting {
    wanted: u64,
    turns: u64,
    arrivals: AtomicU64,
    missed: AtomicU64,
}

impl Meeting {
    pub fn of(wanted: u64, turns: u64) -> Meeting {
        Meeting {
            wanted,
            turns,
            arrivals: AtomicU64::new(0),
            missed: AtomicU64::new(0),
        }
    }

    /// How many builders arrived.
    pub fn arrivals(&self) -> u64 {
        self.arrivals.load(Ordering::SeqCst)
    }

    /// How many of them went on before enough had arrived.
    pub fn missed(&self) -> u64 {
        self.missed.load(Ordering::SeqCst)
    }

    fn is_full(&self) -> bool {
        self.arrivals() >= self.wanted
    }
}

impl Gate for Meeting {
    fn arrive(&self, _year: i32) {
        self.arrivals.fetch_add(1, Ordering::SeqCst);
        for _ in 0..self.turns {
            if self.is_full() {
                return;
            }
            thread::yield_now();
        }
        self.missed.fetch_add(1, Ordering::SeqCst);
    }
}
