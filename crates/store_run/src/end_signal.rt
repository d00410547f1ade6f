//! What ends the pauses of a thread.

use std::sync::{Condvar, Mutex, Wait};
use std::time::{Clock, Duration};

// Whether a bell was rung, and the condition on which a thread waits for that. It has a lock of its
// own.
#[derive(Drop)]
pub(crate) struct EndSignal {
    is_rung: Mutex<bool>,
    rings: Condvar,
}

impl EndSignal {
    // A bell that was not rung.
    pub(crate) fn new() -> EndSignal {
        EndSignal {
            is_rung: Mutex::new(false),
            rings: Condvar::new(),
        }
    }

    // Rings it.
    pub(crate) fn ring<R: Wait>(&self, rt: &R) {
        *self.is_rung.lock(rt) = true;
        self.rings.notify_one();
    }

    // Waits until it is rung, so long at most, or until the thread wakes by itself. Says whether it
    // was rung.
    pub(crate) fn rings_within<R: Wait + Clock>(&self, rt: &R, pause: Duration) -> bool {
        let is_rung = self.is_rung.lock(rt);
        if *is_rung {
            return true;
        }
        let (is_rung, _) = self.rings.wait_timeout(rt, is_rung, pause);
        *is_rung
    }
}
