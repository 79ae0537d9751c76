//! A backend in memory, which fails at stated calls.
ghost use Rattle.std.specs.Prelude.{◌≡◌, ◌≤◌, IsTrue, true, None, IfOk};
ghost use Rattle.std.specs.FinMap as map;
ghost use Rattle.std.specs.Option.{option_copied};
ghost use Rattle.node_backend.specs.Order.{IsNext};
ghost use Rattle.run_io.specs.Bytes.{Rose};
ghost use Rattle.node_backend.specs.Counts.{held_sum, CountsGet};
ghost use Rattle.node_backend.specs.Calls.{fails_next, faults_after};
ghost use Rattle.node_backend.specs.Doubts.{SetsPair};
ghost use Rattle.node_backend.specs.Filling.{filled};

use crate::table::NodeTable;
use crate::{BackFault, Backend};
use half_hash::{Blob, Hash32};
use std::alloc::Global;

/// A backend in memory. It fails exactly in the calls with the numbers that it is given, from 1.
#[derive(Drop)]
pub struct MemBackend {
    pub(crate) number: u64,
    pub(crate) map: NodeTable,
    pub(crate) calls: u64,
    pub(crate) gets: u64,
    pub(crate) failing: Vec<u64>,
    pub(crate) faults: u64,
}

impl MemBackend {
    /// An empty backend that fails in these calls.
    pub fn new(alloc: Global, failing: Vec<u64>) -> MemBackend
        ensures map { result.map ≡ map.empty }
        ensures counts { (result.calls ≡ 0) × (result.gets ≡ 0) × (result.faults ≡ 0) }
        ensures failing { result.failing ≡ failing }
        ensures number { result.number ≡ 0 }
    {
        MemBackend {
            number: 0,
            map: NodeTable::new(alloc),
            calls: 0,
            gets: 0,
            failing,
            faults: 0,
        }
    }
}

/// One more call, and whether it fails.
pub(crate) fn call_fails(calls: &mut u64, faults: &mut u64, failing: &[u64]) -> bool
    ensures called { calls.new ≡ held_sum calls.old 1 }
    ensures fails { result ≡ fails_next calls.old failing.now }
    ensures failed { faults.new ≡ faults_after result faults.old }
    ensures rose { IsTrue result → Rose faults.old faults.new }
    ensures later { faults.old ≤ faults.new }
{
    *calls = calls.saturating_add(1);
    let fails = failing.contains(calls);
    if fails {
        *faults = faults.saturating_add(1);
    }
    fails
}

impl Backend for MemBackend {
    ghost use Rattle.node_backend.specs.Memory.{LeavesMemory};

    ghost tells = { true };

    ghost held = { λ b. b.map };

    ghost faults = { λ b. b.faults };

    ghost gets = { λ b. b.gets };

    ghost number = { λ b. b.number };

    ghost doubt = { λ _. None };

    fn is_telling() -> bool {
        true
    }

    fn get(&mut self, alloc: Global, h: &Hash32) -> Result<Option<Blob>, BackFault>
        ensures same { self.new.map ≡ self.old.map }
        ensures found { IfOk result (λ b. b ≡ map.get self.old.map h.now) }
        ensures asked { CountsGet self.old.gets self.new.gets }
        ensures left { LeavesMemory self.old self.new result }
    {
        self.gets = self.gets.saturating_add(1);
        if call_fails(&mut self.calls, &mut self.faults, &self.failing) {
            return Err(BackFault::Fault);
        }
        match self.map.get(h) {
            None => Ok(None),
            Some(form) => Ok(Some(Blob::from_slice(alloc, form.bytes())?)),
        }
    }

    fn get_into(&mut self, _: Global, h: &Hash32, room: &mut Vec<u8>) -> Result<bool, BackFault>
        ensures same { self.new.map ≡ self.old.map }
        ensures found { IfOk result (λ b. filled b room.new.items ≡ map.get self.old.map h.now) }
        ensures asked { CountsGet self.old.gets self.new.gets }
        ensures left { LeavesMemory self.old self.new result }
    {
        self.gets = self.gets.saturating_add(1);
        if call_fails(&mut self.calls, &mut self.faults, &self.failing) {
            return Err(BackFault::Fault);
        }
        match self.map.get(h) {
            None => Ok(false),
            Some(form) => {
                room.clear();
                room.extend_from_slice(form.bytes())?;
                Ok(true)
            }
        }
    }

    fn put(&mut self, alloc: Global, h: &Hash32, form: &[u8]) -> Result<(), BackFault>
        ensures pair { SetsPair self.old.map self.new.map h.now form.now result }
        ensures uncounted { self.new.gets ≡ self.old.gets }
        ensures left { LeavesMemory self.old self.new result }
    {
        if call_fails(&mut self.calls, &mut self.faults, &self.failing) {
            return Err(BackFault::Fault);
        }
        let form = Blob::from_slice(alloc, form)?;
        self.map.insert(*h, form)?;
        Ok(())
    }

    fn next(&mut self, alloc: Global, after: Option<&Hash32>) -> Result<Option<Hash32>, BackFault>
        ensures same { self.new.map ≡ self.old.map }
        ensures next { IfOk result (IsNext self.old.map (option_copied after.entry)) }
        ensures uncounted { self.new.gets ≡ self.old.gets }
        ensures left { LeavesMemory self.old self.new result }
    {
        if call_fails(&mut self.calls, &mut self.faults, &self.failing) {
            return Err(BackFault::Fault);
        }
        Ok(self.map.next(alloc, after)?)
    }

    fn faults(&self) -> u64 {
        self.faults
    }

    fn gets(&self) -> u64 {
        self.gets
    }
}
