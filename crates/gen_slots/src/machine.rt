//! The slot machine alone, without a table: the counts of enters and leaves, and which slot each
//! reader holds.
ghost use Rattle.std.specs.Prelude.{◌≡◌, ◌+◌, ◌<◌, ◌≤◌, ◌^◌, ◌↔◌, IsTrue, IfOk, IsSome, None, slice_index};
ghost use Rattle.gen_slots.specs.declared.machine.Standing.TheVariants.{Retired, Free};
ghost use Rattle.gen_slots.specs.SlotMachine.{initial, holder, entered_by, left_by, checked_at, with_published, holders, standing_of};
ghost use Rattle.gen_slots.specs.SlotRuns.{EveryRun};

use set_model::Memory;
use std::alloc::Global;
use std::marker::Model;

// Counts are modulo 2 to the power 56, the bits of a word above the slot's number.
const COUNTS: u64 = 1 << 56;

/// The status of a slot.
#[derive(Clone, Copy, Debug, PartialEq, Eq)]
pub enum Standing {
    /// Readers enter it.
    Published,
    /// Readers may still hold it.
    Retired,
    /// Nobody holds it.
    Free,
}

/// The counts of `readers` plus two slots, and the slot that each reader holds.
#[derive(Drop)]
pub struct SlotCore {
    readers: u32,
    published: u32,
    done: Vec<u64>,
    entered: Vec<u64>,
    standing: Vec<Standing>,
    held: Vec<Option<u32>>,
}

impl Model for SlotCore {
    ghost use Rattle.gen_slots.specs.SlotMachine.{Machine, machine, IsConsistent};

    ghost Value = { Machine };

    ghost view = { λ c. machine c.readers c.published c.done.items c.entered.items c.standing.items c.held.items };

    ghost invariant = { λ c. IsConsistent (machine c.readers c.published c.done.items c.entered.items c.standing.items c.held.items) };
}

impl SlotCore {
    /// The machine at the start, with every count 0. It fails only if memory runs out.
    pub fn new(alloc: Global, readers: u32) -> Result<SlotCore, Memory>
        requires { (0 < readers) × (readers ≤ 16) }
        ensures { IfOk result (λ core. core ≡ initial readers 0) }
    {
        SlotCore::with_counts(alloc, readers, 0)
    }

    /// The machine at the start, with every count at `start`. It fails only if memory runs out.
    pub fn with_counts(alloc: Global, readers: u32, start: u64) -> Result<SlotCore, Memory>
        requires readers { (0 < readers) × (readers ≤ 16) }
        requires start { start < 2 ^ 56 }
        ensures { IfOk result (λ core. core ≡ initial readers start) }
    {
        let slots = readers as usize + 2;
        let mut done = Vec::new(alloc);
        let mut entered = Vec::new(alloc);
        for _ in 0..slots {
            done.push(start)?;
            entered.push(start)?;
        }
        let mut standing = Vec::new(alloc);
        standing.push(Standing::Published)?;
        for _ in 0..readers + 1 {
            standing.push(Standing::Free)?;
        }
        let mut held = Vec::new(alloc);
        for _ in 0..readers {
            held.push(None)?;
        }
        Ok(SlotCore {
            readers,
            published: 0,
            done,
            entered,
            standing,
            held,
        })
    }

    /// The reader, which holds nothing, enters the published slot.
    pub fn enter(&mut self, reader: u32)
        requires number { reader < self.old.readers }
        requires outside { holder self.old reader ≡ None }
        ensures { self.new ≡ entered_by reader self.old }
    {
        let at = self.published as usize;
        self.held[reader as usize] = Some(self.published);
        self.entered[at] = (self.entered[at] + 1) % COUNTS;
    }

    /// The reader leaves its slot.
    pub fn leave(&mut self, reader: u32)
        requires number { reader < self.old.readers }
        requires inside { IsSome (holder self.old reader) }
        ensures { self.new ≡ left_by reader self.old }
    {
        if let Some(slot) = self.held[reader as usize] {
            self.held[reader as usize] = None;
            self.done[slot as usize] = (self.done[slot as usize] + 1) % COUNTS;
        }
    }

    /// Whether nobody holds the retired slot. If so, it becomes free.
    pub fn check(&mut self, slot: u32) -> bool
        requires number { slot < self.old.readers + 2 }
        requires retired { standing_of self.old slot ≡ Retired }
        ensures counts { IsTrue result ↔ (slice_index self.old.done slot ≡ slice_index self.old.entered slot) }
        ensures nobody { IsTrue result ↔ (holders self.old slot ≡ 0) }
        ensures next { self.new ≡ checked_at slot result self.old }
    {
        let slot = slot as usize;
        let unheld = self.done[slot] == self.entered[slot];
        if unheld {
            self.standing[slot] = Standing::Free;
        }
        unheld
    }

    /// Publishes the free slot. The slot that was published retires.
    pub fn publish(&mut self, slot: u32)
        requires number { slot < self.old.readers + 2 }
        requires free { standing_of self.old slot ≡ Free }
        ensures { self.new ≡ with_published slot self.old }
    {
        let to = slot as usize;
        self.standing[self.published as usize] = Standing::Retired;
        self.standing[to] = Standing::Published;
        self.entered[to] = self.done[to];
        self.published = slot;
    }

    /// How many readers hold the slot.
    pub fn holders(&self, slot: u32) -> u32
        requires { slot < self.now.readers + 2 }
        ensures count { result ≡ holders self.now slot }
        ensures few { result ≤ 16 }
    {
        let mut count = 0;
        for held in &self.held {
            if let Some(there) = held {
                if *there == slot {
                    count += 1;
                }
            }
        }
        count
    }
}

/// The facts of `IsSound` hold after every list of events, from every start value of the counts.
pub fn every_run()
    ensures { EveryRun }
{}
