//! The calls of a source or sink in memory: which of them fail, and the numbers of calls and of
//! faults so far.
ghost use Rattle.std.specs.Prelude.{◌≡◌, [], length, IfOk};
ghost use Rattle.calc_base.specs.Fault.{counted_up};
ghost use Rattle.calc_base.specs.Supply.{is_listed};

use crate::NoMemory;
use std::alloc::Global;

/// The numbers, counted from 0, of the calls that fail; the number of calls so far; and the number
/// of faults so far.
#[derive(Drop)]
pub(crate) struct Calls {
    pub(crate) fails: Vec<u64>,
    pub(crate) made: u64,
    pub(crate) faults: u64,
}

impl Calls {
    /// The state before the first call; the calls with a number in `fails` fail.
    pub(crate) fn new(alloc: Global, fails: &[u64]) -> Result<Self, NoMemory>
        ensures fails { IfOk result (λ calls. calls.fails.items ≡ fails.now) }
        ensures made { IfOk result (λ calls. calls.made ≡ 0) }
        ensures faults { IfOk result (λ calls. calls.faults ≡ 0) }
    {
        Ok(Calls {
            fails: Vec::from_slice(alloc, fails)?,
            made: 0,
            faults: 0,
        })
    }

    /// Increases the number of calls by 1, but not beyond 2^64 - 1, and returns whether this call
    /// is one of those that fail.
    pub(crate) fn begin(&mut self) -> bool
        ensures listed { result ≡ is_listed self.old.fails.items self.old.made }
        ensures fails { self.new.fails.items ≡ self.old.fails.items }
        ensures made { self.new.made ≡ counted_up self.old.made }
        ensures faults { self.new.faults ≡ self.old.faults }
    {
        let listed = self.fails.contains(&self.made);
        self.made = self.made.saturating_add(1);
        listed
    }

    /// Increases the number of faults by 1, but not beyond 2^64 - 1.
    pub(crate) fn fault(&mut self)
        ensures fails { self.new.fails.items ≡ self.old.fails.items }
        ensures made { self.new.made ≡ self.old.made }
        ensures faults { self.new.faults ≡ counted_up self.old.faults }
    {
        self.faults = self.faults.saturating_add(1);
    }
}
