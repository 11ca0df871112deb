//! The set of breakpoints: the locations at which a run stops.

ghost use Rattle.std.specs.Prelude.{◌≡◌, ◌≤◌, IfOk, OnErr, OnOk, is_err, position};
ghost use Rattle.std.specs.FinSet.{len};
ghost use Rattle.std.specs.List.{list_any};
ghost use Rattle.h41_breakpoints.specs.Breakpoints.{is_set, most_breakpoints, no_breakpoints};
ghost use Rattle.h41_breakpoints.specs.Breakpoints.{lacks_breakpoint, refuses_breakpoint};
ghost use Rattle.h41_breakpoints.specs.Breakpoints.{with_breakpoint, without_breakpoint};
ghost use Rattle.h41_breakpoints.specs.private.Members.{is_same};

use crate::location::Location;
use crate::tables::Tables;
use arrayvec::ArrayVec;
use std::alloc::{AllocError, Global};
use std::marker::Model;

/// The most breakpoints that can be set.
const MOST: usize = 16;

/// The error of setting a breakpoint, BreakFull (19): it is not set, and 16 others are.
#[derive(Clone, Copy, Debug, PartialEq, Eq)]
pub struct BreakFull;

/// The error of removing a breakpoint, NoBreak (20): it is not set.
#[derive(Clone, Copy, Debug, PartialEq, Eq)]
pub struct NoBreak;

/// A set of at most 16 breakpoints.
#[derive(Drop)]
pub struct Breakpoints {
    items: ArrayVec<Location, MOST>,
    /// Which words and program lines have a breakpoint, so that `contains` rarely needs to search `items`.
    tables: Tables,
}

impl Model for Breakpoints {
    ghost use Rattle.std.specs.FinSet as set;
    ghost use Rattle.h41_breakpoints.specs.Breakpoints.{BreakpointSet};
    ghost use Rattle.h41_breakpoints.specs.private.Members.{IsEachOnce, set_of};
    ghost use Rattle.h41_breakpoints.specs.private.Tables.{AreTablesOf};
    ghost use Rattle.h41_breakpoints.specs.contracts.location.Location as member;

    ghost Value = { BreakpointSet };

    ghost coded = { set.code member.the_row.coded };

    ghost view = { λ set. set_of set.items.items };

    ghost invariant = { λ set.
        IsEachOnce set.items.items × AreTablesOf set.items.items set.tables };
}

impl Breakpoints {
    /// Returns the set without breakpoints. OutOfMemory (21) if allocation fails.
    pub fn new(alloc: Global) -> Result<Self, AllocError>
        ensures { IfOk result (λ breakpoints. breakpoints ≡ no_breakpoints) }
    {
        Ok(Breakpoints {
            items: ArrayVec::new(),
            tables: Tables::new(alloc)?,
        })
    }

    /// Returns whether a breakpoint is set at this location.
    #[inline(always)]
    pub fn contains(&self, location: Location) -> bool
        ensures { result ≡ is_set self.now location }
    {
        match self.tables.get(location) {
            Some(is_set) => is_set,
            None => is_among(self.items.as_slice(), location),
        }
    }

    /// Returns the number of breakpoints that are set, at most 16.
    pub fn count(&self) -> usize
        ensures count { result ≡ len self.now }
        ensures most { result ≤ most_breakpoints }
    {
        self.items.len()
    }

    /// Sets a breakpoint at this location; one that is already set stays. BreakFull (19) if it is not set and 16 others are; the set is
    /// then unchanged.
    pub fn insert(&mut self, location: Location) -> Result<(), BreakFull>
        ensures refusal { is_err result ≡ refuses_breakpoint self.old location }
        ensures change { OnOk result (self.new ≡ with_breakpoint location self.old) }
        ensures unchanged { OnErr result (self.new ≡ self.old) }
    {
        if self.contains(location) {
            return Ok(());
        }
        if self.items.is_full() {
            return Err(BreakFull);
        }
        self.items.push(location);
        self.tables.set(location, true);
        Ok(())
    }

    /// Removes the breakpoint at this location. NoBreak (20) if there is none; the set is then unchanged.
    pub fn remove(&mut self, location: Location) -> Result<(), NoBreak>
        ensures refusal { is_err result ≡ lacks_breakpoint self.old location }
        ensures change { OnOk result (self.new ≡ without_breakpoint location self.old) }
        ensures unchanged { OnErr result (self.new ≡ self.old) }
    {
        match index_among(self.items.as_slice(), location) {
            Some(index) => {
                self.items.swap_remove(index);
                self.tables.set(location, false);
                Ok(())
            }
            None => Err(NoBreak),
        }
    }
}

/// Returns whether a location is among the locations in `set`.
#[inline(never)]
fn is_among(set: &[Location], location: Location) -> bool
    ensures { result ≡ list_any (is_same location) set.now }
{
    set.iter().any(|each| location.is(*each))
}

/// Returns the index of the first location in `set` that is `location`, or `None` if there is none.
fn index_among(set: &[Location], location: Location) -> Option<usize>
    ensures { result ≡ position (is_same location) set.now }
{
    set.iter().position(|each| location.is(*each))
}
