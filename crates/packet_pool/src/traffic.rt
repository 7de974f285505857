//! The packets of a section, and how workers answer them: each draws batches until there are no more.
ghost use Rattle.std.specs.Prelude.{◌≡◌, ◌+◌, ◌*◌, ◌/◌, ◌<◌, ◌≤◌, ◌^◌, ◌==◌, ◌∷◌, ◌++◌, [], ℕ, cond, length, vec_capacity, IfOk};
ghost use Rattle.history_laws.specs.Histories.{StartsWith};
ghost use Rattle.set_model.specs.declared.report.Line.{Line as PacketLine};
ghost use Rattle.packet_pool.specs.Work.{AllFit, batches_of, IsLine, Told, Before, named, IsFresh, Serves, HasWorked};

use crate::counter::{Counter, draw};
use crate::gate::Gate;
use crate::judge::Judge;
use crate::worker::Worker;
use gen_publish::Reader;
use set_model::{Line, Memory, Packets};

/// How many packets a worker draws at once.
pub(crate) const BATCH: u64 = 16;

/// The packets of a section, the number of the first, and their judge.
#[derive(Drop)]
pub(crate) struct Traffic<'a, J, G> {
    pub(crate) packets: &'a Packets,
    pub(crate) first: u64,
    pub(crate) judge: &'a J,
    pub(crate) gate: &'a G,
    ghost numbered: { first + length packets.now < 2 ^ 64 },
}

impl<J: Judge, G: Gate> Traffic<'_, J, G> {
    /// How many batches there are.
    pub(crate) fn batches(&self) -> u64
        ensures { result ≡ batches_of (length self.now.packets.now) }
    {
        self.packets.len().div_ceil(BATCH)
    }

    /// Answers one packet, between an enter and a leave of its own. It writes the line before the
    /// leave. So it does nothing between this leave and the next enter, which work on words that all
    /// threads share.
    #[inline]
    fn answer(&self, reader: Reader, thread: u32, place: u64, lines: &mut Vec<Line>) -> Reader
        requires place { place < length self.now.packets.now }
        requires schema { J.serves self.now.judge.now reader.schema }
        requires packets { AllFit reader.schema self.now.packets.now }
        requires room { length lines.old.items < vec_capacity lines.old }
        ensures seen { StartsWith result.seen reader.seen }
        ensures same { (result.of ≡ reader.of) × (result.schema ≡ reader.schema) × (result.reader ≡ reader.reader) }
        ensures moves { result.moves ≡ reader.moves + 2 }
        ensures line { (line : PacketLine) × (lines.new.items ≡ lines.old.items ++ line ∷ []) × IsLine (J.verdict self.now.judge.now) self.now.packets.now self.now.first thread (length result.seen) result.seen place line × (line.generation + 1 ≡ length result.seen) }
        ensures room { vec_capacity lines.new ≡ vec_capacity lines.old }
    {
        let packet = self.packets.at(place);
        let number = self.first + place;
        self.gate.before(thread, number);
        let mut held = reader.enter();
        let generation = held.generation();
        let verdict = self.judge.judge(&mut held, packet);
        lines.push_reserved(Line {
            packet: number,
            thread,
            generation,
            verdict,
        });
        let reader = held.leave();
        self.gate.after(thread, number);
        reader
    }

    /// Answers the packets of one batch. It takes room for their lines before the first enter.
    fn answer_batch(
        &self,
        reader: Reader,
        thread: u32,
        batch: u64,
        lines: &mut Vec<Line>,
    ) -> Result<Reader, Memory>
        requires schema { J.serves self.now.judge.now reader.schema }
        requires packets { AllFit reader.schema self.now.packets.now }
        requires batch { 16 * batch < length self.now.packets.now }
        requires before { Before (self.now.first + 16 * batch) lines.old.items }
        ensures seen { IfOk result (λ r. StartsWith r.seen reader.seen) }
        ensures same { IfOk result (λ r. (r.of ≡ reader.of) × (r.schema ≡ reader.schema) × (r.reader ≡ reader.reader)) }
        ensures moves { IfOk result (λ r. r.moves + 2 * length lines.old.items ≡ reader.moves + 2 * length lines.new.items) }
        ensures told { IfOk result (λ r. (low : ℕ) → low ≤ length reader.seen → Told (J.verdict self.now.judge.now) self.now.packets.now self.now.first thread low reader.seen lines.old.items → Told (J.verdict self.now.judge.now) self.now.packets.now self.now.first thread low r.seen lines.new.items) }
        ensures before { IfOk result (λ _. Before (self.now.first + 16 * (batch + 1)) lines.new.items) }
        ensures named { IfOk result (λ _. (p : ℕ) → p < length self.now.packets.now → named (self.now.first + p) lines.new.items ≡ named (self.now.first + p) lines.old.items + cond (batch == p / 16) 1 0) }
    {
        let start = BATCH * batch;
        let end = start + BATCH.min(self.packets.len() - start);
        lines.reserve(BATCH as usize)?;
        let mut reader = reader;
        for place in start..end {
            reader = self.answer(reader, thread, place, lines);
        }
        Ok(reader)
    }

    /// A worker's part: it draws batches until there are no more, and answers their packets.
    pub(crate) fn work(&self, counter: &Counter, worker: Worker) -> Result<Worker, Memory>
        requires worker { Serves (J.serves self.now.judge.now) self.now.packets.now worker }
        requires fresh { IsFresh (batches_of (length self.now.packets.now)) counter.now.shared.table_id worker }
        requires table { counter.now.shared.table_id.words ≡ 1 }
        ensures { IfOk result (λ w. HasWorked (J.verdict self.now.judge.now) self.now.packets.now self.now.first worker w) }
    {
        let batches = self.batches();
        let Worker {
            thread,
            mut reader,
            mut place,
            mut lines,
        } = worker;
        let mut least = 0;
        'draws: loop {
            let batch = draw(counter, &mut place);
            if batch >= batches {
                return Ok(Worker {
                    thread,
                    reader,
                    place,
                    lines,
                });
            }
            reader = self.answer_batch(reader, thread, batch, &mut lines)?;
            least = batch + 1;
        }
    }
}
