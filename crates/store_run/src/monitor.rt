//! A value behind a lock, with a condition on which threads wait until it has changed.

use crate::turn::Wake;
use std::sync::{Condvar, Mutex, MutexGuard, Wait};

/// A call of a lock or of its condition.
#[derive(Clone, Copy, Debug, PartialEq, Eq)]
pub enum LockCall {
    /// The lock was taken.
    Taken,
    /// The lock is let go.
    Freed,
    /// The lock is let go, and the thread waits on the condition, in one call.
    Waits,
    /// The wait has ended, and the lock was taken again.
    Woken,
    /// One waiting thread is woken, if any waits.
    WakesOne,
    /// All waiting threads are woken.
    WakesAll,
}

/// A handle that may wait, and hears of each call of a run's lock. This is no part of a run, and
/// nothing is promised of it.
pub trait Listen: Wait {
    /// Hears of a call, while the lock is held; but of those that wake, while it is not.
    fn hear(&self, call: LockCall);
}

// A handle that may wait, and does not listen.
#[derive(Drop)]
pub(crate) struct NoListener<'a, R> {
    rt: &'a R,
}

impl<'a, R: Wait> NoListener<'a, R> {
    // Over a handle that may wait.
    pub(crate) fn over(rt: &'a R) -> NoListener<'a, R> {
        NoListener { rt }
    }
}

impl<'a, R: Wait> Wait for NoListener<'a, R> {}

impl<'a, R: Wait> Listen for NoListener<'a, R> {
    fn hear(&self, _call: LockCall) {}
}

// A value behind a lock, and the condition on which threads wait until it has changed.
pub(crate) struct Monitor<T> {
    value: Mutex<T>,
    changed: Condvar,
}

// The value of a monitor, whose lock is held by a thread with this handle.
pub(crate) struct MonitorGuard<'a, T, R: Listen> {
    guard: MutexGuard<'a, T>,
    rt: &'a R,
}

impl<T> Monitor<T> {
    // A value behind a lock.
    pub(crate) fn new(value: T) -> Monitor<T> {
        Monitor {
            value: Mutex::new(value),
            changed: Condvar::new(),
        }
    }

    // Takes the lock.
    pub(crate) fn lock<'a, R: Listen>(&'a self, rt: &'a R) -> MonitorGuard<'a, T, R> {
        let guard = self.value.lock(rt);
        rt.hear(LockCall::Taken);
        MonitorGuard { guard, rt }
    }

    // Lets the lock go and waits, in one call, until the thread is woken or wakes by itself; then
    // takes the lock again.
    pub(crate) fn wait<'a, R: Listen>(
        &self,
        held: MonitorGuard<'a, T, R>,
    ) -> MonitorGuard<'a, T, R> {
        held.wait(&self.changed)
    }

    // Wakes nobody, one of the waiting threads, or all of them.
    pub(crate) fn wake<R: Listen>(&self, rt: &R, whom: Wake) {
        match whom {
            Wake::Nobody => {}
            Wake::One => {
                rt.hear(LockCall::WakesOne);
                self.changed.notify_one();
            }
            Wake::All => {
                rt.hear(LockCall::WakesAll);
                self.changed.notify_all();
            }
        }
    }

    // The value, once no thread can take the lock.
    pub(crate) fn into_inner(self) -> T {
        let Monitor {
            value,
            changed: _changed,
        } = self;
        value.into_inner()
    }
}

impl<'a, T, R: Listen> MonitorGuard<'a, T, R> {
    // The value.
    pub(crate) fn value(&mut self) -> &mut T {
        &mut self.guard
    }

    // Waits on a condition, with the lock let go until the wait ends.
    fn wait(self, changed: &Condvar) -> MonitorGuard<'a, T, R> {
        let MonitorGuard { guard, rt } = self;
        rt.hear(LockCall::Waits);
        let guard = changed.wait(rt, guard);
        rt.hear(LockCall::Woken);
        MonitorGuard { guard, rt }
    }
}

impl<'a, T, R: Listen> Drop for MonitorGuard<'a, T, R> {
    fn drop(self) {
        let MonitorGuard { guard, rt } = self;
        rt.hear(LockCall::Freed);
        drop(guard);
    }
}
