//! The counter from which workers draw the numbers of batches: one word, to which each draw adds 1.
ghost use Rattle.std.specs.Prelude.{◌≡◌, ℕ, ◌+◌, ◌-◌, ◌<◌, ◌^◌, [], ◌∷◌, ◌++◌, IfOk};
ghost use Rattle.packet_pool.specs.Draws.{Kept, hand, times, once_below, drew, counted};

use atomic_table::{Join, Play, Refused, Seat, Split, Table, TableRule};
use set_model::Memory;
use std::alloc::Global;
use std::collections::LinkedList;

/// What a seat at the counter knows. It exists in proofs alone; no code makes one.
pub struct Hand {
    /// How many workers the seat represents.
    pub workers: u64,
    /// How many batches there are, if the seat represents a worker.
    pub batches: u64,
    /// The numbers that the seat has drawn.
    pub drawn: LinkedList<u64>,
    /// How many of the drawn numbers are no batch's, since they are too high.
    pub past: u64,
}

/// What the counter learns at its start.
#[derive(Clone, Copy)]
pub struct Supply {
    /// How many batches there are.
    pub batches: u64,
    /// How many workers draw.
    pub workers: u64,
}

/// The rule of the counter: each number below the word was drawn once.
pub struct Draws;

impl TableRule<u64, Hand, Supply> for Draws {
    ghost holds = { λ key. Kept key.batches key.workers };

    ghost first = { λ key. hand key.workers key.batches [] 0 };
}

/// The counter: one word, and no entries.
pub type Counter = Table<u64, Hand, Supply, Draws, Global>;

/// A seat at the counter, with what its holder has drawn.
pub type Place = Seat<u64, Hand>;

struct DrawStep;

impl Play<u64, Hand> for DrawStep {
    ghost then = { drew };
}

struct CountStep;

impl Play<u64, Hand> for CountStep {
    ghost then = { counted };
}

/// The step that gives one of a seat's workers to a new seat.
struct DealStep;

impl Split<Hand> for DealStep {
    ghost left = { λ d. hand (d.workers - 1) d.batches d.drawn d.past };

    ghost right = { λ d. hand 1 d.batches [] 0 };
}

/// The step by which one seat takes over another's workers and drawn numbers.
struct GatherStep;

impl Join<Hand> for GatherStep {
    ghost both = { λ d e. hand (d.workers + e.workers) e.batches (d.drawn ++ e.drawn) (d.past + e.past) };

    ghost spent = { hand 0 0 [] 0 };
}

/// A counter at 0, and the seat that represents all workers. `Memory` if memory runs out.
pub(crate) fn open(alloc: Global, batches: u64, workers: u64) -> Result<(Counter, Place), Memory>
    requires { batches + workers < 2 ^ 64 }
    ensures table { IfOk result (λ r. (r.1.table_id ≡ r.0.shared.table_id) × (r.0.shared.table_id.words ≡ 1) × (r.0.shared.key ≡ record { batches = batches; workers = workers })) }
    ensures place { IfOk result (λ r. r.1.me ≡ (hand workers batches [] 0, [])) }
{
    let supply = Supply { batches, workers };
    let made: Result<(Counter, Place), Refused<u64, Global>> = Table::new(
        alloc,
        &[0u64],
        Vec::new(alloc),
        &supply,
    );
    let Ok(made) = made else {
        return Err(Memory);
    };
    Ok(made)
}

/// A seat for one of the workers.
pub(crate) fn deal(counter: &Counter, place: &mut Place) -> Place
    requires table { (place.old.table_id ≡ counter.now.shared.table_id) × (counter.now.shared.table_id.words ≡ 1) }
    requires worker { (0 < place.old.me.0.workers) × (place.old.me.0.drawn ≡ []) × (place.old.me.0.past ≡ 0) }
    ensures table { (place.new.table_id ≡ place.old.table_id) × (result.table_id ≡ place.old.table_id) }
    ensures left { place.new.me ≡ (hand (place.old.me.0.workers - 1) place.old.me.0.batches place.old.me.0.drawn place.old.me.0.past, place.old.me.1) }
    ensures right { result.me ≡ (hand 1 place.old.me.0.batches [] 0, []) }
{
    counter.shared.split_seat::<DealStep>(place)
}

/// The next number, which nobody else draws.
#[inline]
pub(crate) fn draw(counter: &Counter, place: &mut Place) -> u64
    requires table { (place.old.table_id ≡ counter.now.shared.table_id) × (counter.now.shared.table_id.words ≡ 1) }
    requires worker { place.old.me.0.past < place.old.me.0.workers }
    ensures table { (place.new.table_id ≡ place.old.table_id) × (place.new.me.1 ≡ place.old.me.1) }
    ensures drawn { (past : ℕ) × (place.new.me.0 ≡ hand place.old.me.0.workers place.old.me.0.batches (place.old.me.0.drawn ++ result ∷ []) past) × (result < place.old.me.0.batches → past ≡ place.old.me.0.past) }
    ensures later { (x : ℕ) → 0 < times x place.old.me.0.drawn → x < result }
{
    counter.shared.fetch_add::<DrawStep>(place, 0, 1)
}

/// The first seat takes over the other seat's workers and drawn numbers.
pub(crate) fn gather(counter: &Counter, place: &mut Place, other: Place)
    requires table { (place.old.table_id ≡ counter.now.shared.table_id) × (other.table_id ≡ counter.now.shared.table_id) × (counter.now.shared.table_id.words ≡ 1) × (other.me.1 ≡ []) }
    requires worker { 0 < other.me.0.workers }
    ensures table { (place.new.table_id ≡ place.old.table_id) × (place.new.me.1 ≡ place.old.me.1) }
    ensures both { place.new.me.0 ≡ hand (place.old.me.0.workers + other.me.0.workers) other.me.0.batches (place.old.me.0.drawn ++ other.me.0.drawn) (place.old.me.0.past + other.me.0.past) }
{
    counter.shared.join_seat::<GatherStep>(place, other);
}

/// How many numbers were drawn. The seat that represents all workers has drawn each of them once.
pub(crate) fn count_drawn(counter: &Counter, place: &mut Place) -> u64
    requires table { (place.old.table_id ≡ counter.now.shared.table_id) × (counter.now.shared.table_id.words ≡ 1) }
    requires workers { place.old.me.0.workers ≡ counter.now.shared.key.workers }
    ensures { (x : ℕ) → times x place.old.me.0.drawn ≡ once_below x result }
{
    counter.shared.load::<CountStep>(place, 0)
}
