//! A shelf in memory, which numbers its backends and fails at stated calls.
ghost use Rattle.std.specs.Prelude.{◌≡◌, ◌≢◌, ◌≤◌, ◌<◌, ◌++◌, ◌∷◌, ◌+◌, [], IsTrue, length};
ghost use Rattle.std.specs.Prelude.{map as map_list, IfOk};
ghost use Rattle.std.specs.Vec.{vec_capacity};
ghost use Rattle.node_backend.specs.Numbers.{is_among, exceeds, without, ListsNew, TakesBack};
ghost use Rattle.node_backend.specs.Calls.{fails_next, plan_at};
ghost use Rattle.node_backend.specs.Memory.{IsNewMemory};
ghost use Rattle.node_backend.specs.Shelves.{refuses_fresh, MakesOne, LeavesShelved};

use crate::memory::call_fails;
use crate::table::NodeTable;
use crate::{BackFault, MemBackend, Shelf};
use std::alloc::{AllocError, Global};
use std::marker::Model;

/// A shelf in memory. It fails exactly in the calls with the numbers that it is given, from 1, and
/// where every number is used up. Contracts see its fields.
#[derive(Drop)]
pub struct MemShelf {
    plans: Vec<Vec<u64>>,
    made: u64,
    live: Vec<u64>,
    undone: Vec<u64>,
    calls: u64,
    failing: Vec<u64>,
    faults: u64,
}

impl Model for MemShelf {
    ghost use Rattle.std.specs.Prelude.{◌≡◌, ◌≤◌, ◌+◌, IsTrue, length, map as map_list};
    ghost use Rattle.std.specs.Vec.{vec_capacity, vec_items};
    ghost use Rattle.node_backend.specs.Numbers.{exceeds};
    ghost use Rattle.node_backend.specs.Shelves.{Shelved};

    ghost Value = { Shelved };

    ghost view = { λ s. record {
      plans = map_list (λ plan. plan.items) s.plans.items;
      made = s.made;
      live = s.live.items;
      undone = s.undone.items;
      calls = s.calls;
      failing = s.failing.items;
      faults = s.faults;
    } };

    // the numbers in use were handed out, and there is room for those whose discard fails
    ghost invariant = { λ s. IsTrue (exceeds (s.made + 1) s.live.items)
        × IsTrue (exceeds (s.made + 1) s.undone.items)
        × (length s.undone.items + length s.live.items ≤ vec_capacity s.undone) };
}

impl MemShelf {
    /// A shelf whose backends fail by these plans, one after another, and that fails in these calls.
    pub fn new(alloc: Global, plans: Vec<Vec<u64>>, failing: Vec<u64>) -> MemShelf
        ensures plans { result.plans ≡ map_list (λ plan. plan.items) plans.items }
        ensures failing { result.failing ≡ failing.items }
        ensures counts { (result.made ≡ 0) × (result.calls ≡ 0) × (result.faults ≡ 0) }
        ensures lists { (result.live ≡ []) × (result.undone ≡ []) }
    {
        MemShelf {
            plans,
            made: 0,
            live: Vec::new(alloc),
            undone: Vec::new(alloc),
            calls: 0,
            failing,
            faults: 0,
        }
    }
}

/// The plan of a backend.
fn plan_of(alloc: Global, plans: &[Vec<u64>], made: u64) -> Result<Vec<u64>, AllocError>
    ensures { IfOk result (λ plan. plan.items ≡ plan_at (map_list (λ p. p.items) plans.now) made) }
{
    match plans.get(made as usize) {
        None => Ok(Vec::new(alloc)),
        Some(plan) => Ok(Vec::from_slice(alloc, plan)?),
    }
}

/// Lists one more number, with room for it among those whose discard fails.
fn list_number(live: &mut Vec<u64>, undone: &mut Vec<u64>, number: u64) -> Result<(), BackFault>
    requires room { length undone.old.items + length live.old.items ≤ vec_capacity undone.old }
    ensures lists { ListsNew (λ _. number) live.old.items live.new.items undone.old.items undone.new.items result }
    ensures room { length undone.new.items + length live.new.items ≤ vec_capacity undone.new }
    ensures cause { result ≢ Err BackFault.Fault }
{
    let most = live.len() + 1;
    undone.reserve(most)?;
    live.push(number)?;
    Ok(())
}

/// Takes a number out of the list, and says whether it stood there.
fn unlist(live: &mut Vec<u64>, number: u64) -> bool
    ensures gone { live.new.items ≡ without live.old.items number }
    ensures found { result ≡ is_among live.old.items number }
    ensures shorter { IsTrue result → length live.new.items < length live.old.items }
    ensures bound { length live.new.items ≤ length live.old.items }
{
    let found = live.contains(&number);
    live.retain(|k| *k != number);
    found
}

/// Adds the number of a backend whose discard failed. There is room for it.
fn keep_undone(undone: &mut Vec<u64>, number: u64)
    requires { length undone.old.items < vec_capacity undone.old }
    ensures kept { undone.new.items ≡ undone.old.items ++ number ∷ [] }
    ensures room { vec_capacity undone.old ≤ vec_capacity undone.new }
{
    let _ = undone.push(number);
}

impl Shelf for MemShelf {
    type B = MemBackend;

    ghost faults = { λ s. s.faults };

    ghost live = { λ s. s.live };

    ghost undone = { λ s. s.undone };

    fn fresh(&mut self, alloc: Global) -> Result<MemBackend, BackFault>
        ensures backend { IfOk result (λ b. IsNewMemory (self.old.made + 1) (plan_at self.old.plans self.old.made) b) }
        ensures made { MakesOne self.old self.new result }
        ensures above { IfOk result (λ b. IsTrue (exceeds b.number self.old.live) × IsTrue (exceeds b.number self.old.undone)) }
        ensures lists { ListsNew (λ b. b.number) self.old.live self.new.live self.old.undone self.new.undone result }
        ensures left { LeavesShelved (refuses_fresh self.old) self.old self.new result }
    {
        if call_fails(&mut self.calls, &mut self.faults, &self.failing) {
            return Err(BackFault::Fault);
        }
        if self.made == u64::MAX {
            self.faults = self.faults.saturating_add(1);
            return Err(BackFault::Fault);
        }
        let failing = plan_of(alloc, &self.plans, self.made)?;
        let number = self.made + 1;
        list_number(&mut self.live, &mut self.undone, number)?;
        self.made = number;
        Ok(MemBackend {
            number,
            map: NodeTable::new(alloc),
            calls: 0,
            gets: 0,
            failing,
            faults: 0,
        })
    }

    fn discard(&mut self, old: MemBackend) -> Result<(), BackFault>
        ensures taken { TakesBack old.number self.old.live self.new.live self.old.undone self.new.undone result }
        // A backend that is none of this shelf's leaves both lists.
        ensures foreign { ¬ IsTrue (is_among self.old.live old.number) → self.new.undone ≡ self.old.undone }
        ensures made { self.new.made ≡ self.old.made }
        ensures left { LeavesShelved (fails_next self.old.calls self.old.failing) self.old self.new result }
        // It takes no memory.
        ensures memory { result ≢ Err BackFault.Memory }
    {
        let found = unlist(&mut self.live, old.number);
        if !call_fails(&mut self.calls, &mut self.faults, &self.failing) {
            return Ok(());
        }
        if found {
            keep_undone(&mut self.undone, old.number);
        }
        Err(BackFault::Fault)
    }

    fn faults(&self) -> u64 {
        self.faults
    }
}
