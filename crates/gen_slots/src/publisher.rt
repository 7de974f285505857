//! The writer. It finds a slot that nobody holds, and never waits.
ghost use Rattle.std.specs.Prelude.{◌≡◌, ◌≢◌, ℕ, ◌+◌, ◌-◌, ◌*◌, ◌%◌, ◌^◌, ◌≤◌, ◌<◌, List, [], ◌∷◌, ◌++◌, length, vec_capacity, get_or, replicate, slice_set, Some, None};
ghost use Rattle.std.specs.Arc.{arc_value};
ghost use Rattle.history_laws.specs.Histories.{StartsWith, EndsWith, Chain};
ghost use Rattle.history_laws.specs.States.{AllShow};
ghost use Rattle.gen_slots.specs.SlotSteps.{WereStored, berths};
ghost use Rattle.gen_slots.specs.SlotViews.{IsSized, IsPlanAtRest, found_plan, publishing, states_of};
ghost use Rattle.gen_slots.specs.declared.board.Plan.{Plan};
ghost use Rattle.gen_slots.specs.declared.board.Role.TheVariants.{Keeper};

use crate::Version;
use crate::board::{Board, Counted, Place, SeatView, Start};
use crate::counter::Steps;
use crate::kinds::{Check, Learn, Meet, Publish, Tell};
use crate::notes::Note;
use atomic_table::Shared;
use std::alloc::Global;
use std::marker::Model;
use std::sync::Arc;
use std::sync::ledger::Ledger;

type Top<T> = Shared<Option<T>, SeatView<<T as Version>::State>, Start<T>, Counted<T>>;

/// The writer. Each `make` makes one.
#[derive(Drop)]
pub struct Writer<T: Version + Drop> {
    board: Arc<Board<T>, Global>,
    place: Place<T>,
    readers: usize,
    published: usize,
    // Times 256: the enters of a retired slot, the leaves of a free one.
    counts: [u64; 18],
}

impl<T: Version + Drop> Model for Writer<T> {
    ghost use Rattle.std.specs.Prelude.{◌≡◌, ℕ, ◌+◌, ◌*◌, ◌%◌, ◌≤◌, ◌<◌, [], slice_index};
    ghost use Rattle.std.specs.Arc.{arc_value};
    ghost use Rattle.history_laws.specs.Histories.{Chain};
    ghost use Rattle.gen_slots.specs.SlotViews.{Publishing, publishing, IsSized, IsPlanAtRest};

    ghost Value = { Publishing T.State };

    ghost view = { λ w. publishing w.place.table_id w.place.me.0 w.readers w.published (arc_value w.board).shared.key.count };

    ghost invariant = { λ w. (w.place.table_id ≡ (arc_value w.board).shared.table_id) × IsSized w.place.table_id × (0 < w.readers) × (w.readers ≤ 16) × (w.published < w.readers + 2) × (w.place.me.1 ≡ []) × (w.place.table_id.words ≡ w.readers + 3) × IsPlanAtRest w.readers w.published w.counts w.place.me.0.role × ((k : ℕ) → slice_index w.counts k % 256 ≡ 0) × Chain T.follows w.place.me.0.seen };
}

// Checks each slot but the published one, and takes the berths of the first that nobody holds.
fn find<T: Version + Drop, L: Ledger>(
    top: &Top<T>,
    place: &mut Place<T>,
    readers: usize,
    published: usize,
    counts: &[u64; 18],
    steps: &mut Steps<L>,
) -> usize
    requires table { (place.old.table_id ≡ top.now.table_id) × IsSized place.old.table_id × (place.old.table_id.words ≡ readers + 3) × (0 < readers) × (readers ≤ 16) × (published < readers + 2) }
    requires seat { (place.old.me.1 ≡ []) × IsPlanAtRest readers published counts.now place.old.me.0.role }
    ensures seat { (place.new.table_id ≡ place.old.table_id) × (place.new.me.0.seen ≡ place.old.me.0.seen) × ((p : Plan T.State) → place.old.me.0.role ≡ Keeper p → (t : List ℕ) × (m : ℕ) × (steps.new ≡ steps.old + m) × (place.new.me.0.role ≡ Keeper (found_plan p result t m))) }
    ensures slot { (result < readers + 2) × (result ≢ published) }
    ensures berths { (ys : List _) × (length ys ≡ readers) × WereStored T.state place.old.me.0.seen readers (get_or (states_of place.old.me.0.role) result None) ys × (place.new.me.1 ≡ berths result 0 ys) }
    ensures cost { steps.new ≤ steps.old + readers + 1 }
{
    for slot in 0..readers + 2 {
        if slot != published {
            steps.tick();
            if top.load::<Check>(place, 1 + slot) == counts[slot] {
                return slot;
            }
        }
    }
    unreachable!()
}

// Puts the values into the berths that the writer has. The vector then has what was in them.
fn refill<T: Version + Drop>(
    top: &Top<T>,
    place: &mut Place<T>,
    slot: usize,
    values: &mut Vec<Option<T>>,
)
    requires { (place.old.table_id ≡ top.now.table_id) × (slot < 18) × (length values.old.items ≤ 16) × ((ys : List _) × (length ys ≡ length values.old.items) × (place.old.me.1 ≡ berths slot 0 ys)) }
    ensures seat { (place.new.table_id ≡ place.old.table_id) × (place.new.id ≡ place.old.id) × (place.new.me ≡ (place.old.me.0, berths slot 0 values.old.items)) }
    ensures values { place.old.me.1 ≡ berths slot 0 values.new.items }
    ensures room { vec_capacity values.new ≡ vec_capacity values.old }
{
    for reader in 0..values.len() {
        let value = values[reader].take();
        values[reader] = top.exchange(place, 32 * reader + slot, value);
        place.turn();
    }
}

impl<T: Version + Drop> Writer<T> {
    pub(crate) fn seated(
        board: Arc<Board<T>, Global>,
        place: Place<T>,
        readers: usize,
        start: u64,
    ) -> Writer<T>
        requires table { (place.table_id ≡ (arc_value board).shared.table_id) × IsSized place.table_id × (place.table_id.words ≡ readers + 3) × (0 < readers) × (readers ≤ 16) }
        requires start { (arc_value board).shared.key.count ≡ start }
        requires seat { (place.me.1 ≡ []) × IsPlanAtRest readers 0 (replicate 18 (256 * start)) place.me.0.role × Chain T.follows place.me.0.seen }
        requires count { start < 2 ^ 56 }
        ensures { result ≡ publishing place.table_id place.me.0 readers 0 start }
    {
        Writer {
            board,
            place,
            readers,
            published: 0,
            counts: [256 * start; 18],
        }
    }

    /// Publishes the state of these values, one for each reader, in a slot that nobody holds.
    ///
    /// Afterwards the vector has what was in that slot: values of the state with which it was
    /// published before, or nothing if it was never used. The call waits for nobody and takes no
    /// memory. It counts a step for each slot that it checks.
    pub fn publish<L: Ledger>(&mut self, berths: &mut Vec<Option<T>>, steps: &mut Steps<L>)
        requires values { (length berths.old.items ≡ self.old.readers) × ((x : T.State) × AllShow T.state x berths.old.items) }
        requires next { (x y : T.State) → AllShow T.state x berths.old.items → EndsWith self.old.made y → T.follows y x }
        ensures made { (x : T.State) → AllShow T.state x berths.old.items → self.new ≡ record self.old { made = self.old.made ++ x ∷ []; checks = self.new.checks; published = self.new.published; states = slice_set self.old.states self.new.published (Some x) } }
        ensures slot { (self.new.published < self.old.readers + 2) × (self.new.published ≢ self.old.published) }
        ensures stored { (length berths.new.items ≡ self.old.readers) × WereStored T.state self.old.made self.old.readers (get_or self.old.states self.new.published None) berths.new.items }
        ensures room { vec_capacity berths.new ≡ vec_capacity berths.old }
        ensures counted { steps.new + self.old.checks ≡ steps.old + self.new.checks }
        ensures cost { steps.new ≤ steps.old + self.old.readers + 1 }
    {
        let top = &self.board.shared;
        let slot = find(
            top,
            &mut self.place,
            self.readers,
            self.published,
            &self.counts,
            steps,
        );
        refill(top, &mut self.place, slot, berths);
        let found = top.swap::<Publish>(&mut self.place, 0, self.counts[slot] + slot as u64);
        self.counts[self.published] = found - found % 256;
        self.published = slot;
    }

    /// A note of what was published, for a reader to take in. It takes no memory.
    pub fn note(&mut self) -> Note<T>
        ensures note { (result.of ≡ self.old.of) × (result.list ≡ self.old.made) }
        ensures same { self.new ≡ self.old }
    {
        let shared = &self.board.shared;
        Note::seated(shared.split_seat::<Tell>(&mut self.place))
    }

    /// Takes a note in: its list is a beginning of what was published. It takes no memory.
    pub fn hear(&mut self, note: Note<T>)
        requires { note.of ≡ self.old.of }
        ensures same { self.new ≡ self.old }
        ensures begins { StartsWith self.new.made note.list }
    {
        let shared = &self.board.shared;
        shared.join_seat::<Meet>(&mut self.place, note.into_place());
        shared.load::<Learn>(&mut self.place, 0);
    }

    /// A law: each published state may follow the one before it. It does nothing.
    pub fn known(&self)
        ensures { Chain T.follows self.now.made }
    {
        let _ = &self.place;
    }
}
