//! Leases: derivations that were given out to be built.
ghost use Rattle.std.specs.Prelude.{◌≡◌, None, Some};

use build_outcome::Job;
use std::marker::Model;

/// A derivation that a book gave out to be built: its job, its number among the book's leases,
/// counted from 0, and what the outlet told when it was given. A contract sees these three. A lease
/// is ended by the book that gave it, or given up.
#[derive(Debug)]
pub struct Lease<T> {
    job: Job,
    number: u64,
    told: Option<T>,
}

impl<T> Model for Lease<T> {
    ghost use Rattle.sched_core.specs.Books.{Leased};

    ghost Value = { Leased T };

    ghost view = { λ l. record { job = l.job; number = l.number; told = l.told } };
}

impl<T> Lease<T> {
    // The lease of a job under a number.
    pub(crate) fn new(job: Job, number: u64, told: T) -> Lease<T>
        ensures job { result.job ≡ job }
        ensures number { result.number ≡ number }
        ensures told { result.told ≡ Some told }
    {
        Lease {
            job,
            number,
            told: Some(told),
        }
    }

    /// What is to be built.
    pub fn job(&self) -> &Job
        ensures { result.now ≡ self.now.job }
    {
        &self.job
    }

    /// The lease's number among those of its book, counted from 0.
    pub fn number(&self) -> u64
        ensures { result ≡ self.now.number }
    {
        self.number
    }

    /// What the outlet told when the lease was given: some at the first call, none after it.
    pub fn told(&mut self) -> Option<T>
        ensures told { result ≡ self.old.told }
        ensures left { self.new.told ≡ None }
        ensures job { self.new.job ≡ self.old.job }
        ensures number { self.new.number ≡ self.old.number }
    {
        self.told.take()
    }
}

impl<T: Drop> Lease<T> {
    /// Ends the lease without its book, which keeps the derivation as building.
    pub fn give_up(self) {
        let Lease {
            job: _job,
            number: _,
            told: _told,
        } = self;
    }
}
