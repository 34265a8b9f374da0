// How one lane waits for others.
use std::sync::atomic::{AtomicU64, Ordering};

/// The turns that a lane waits for another at most.
const TURNS: u32 = 200_000_000;

/// What one thread sets and another waits for.
#[derive(Drop)]
pub(crate) struct Flag {
    word: AtomicU64,
}

impl Flag {
    pub(crate) fn new() -> Self {
        Flag {
            word: AtomicU64::new(0),
        }
    }

    pub(crate) fn set(&self) {
        self.word.store(1, Ordering::SeqCst);
    }

    pub(crate) fn is_set(&self) -> bool {
        self.word.load(Ordering::SeqCst) == 1
    }

    /// Waits until the flag is set. If it never is, the other flag is set.
    pub(crate) fn wait(&self, missed: &Flag) {
        for _ in 0..TURNS {
            if self.is_set() {
                return;
            }
        }
        missed.set();
    }
}

/// What threads count up and wait for.
#[derive(Drop)]
pub(crate) struct Count {
    word: AtomicU64,
}

impl Count {
    pub(crate) fn new() -> Self {
        Count {
            word: AtomicU64::new(0),
        }
    }

    pub(crate) fn raise(&self) {
        self.word.fetch_add(1, Ordering::SeqCst);
    }

    pub(crate) fn value(&self) -> u64 {
        self.word.load(Ordering::SeqCst)
    }

    /// Waits until so many have come, or until another gave up. If they never come, the flag is set.
    pub(crate) fn wait(&self, all: u64, missed: &Flag) {
        for _ in 0..TURNS {
            if self.value() == all || missed.is_set() {
                return;
            }
        }
        missed.set();
    }
}
