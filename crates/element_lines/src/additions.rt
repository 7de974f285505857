//! The additions of a script, and the lines of packets.
ghost use Rattle.std.specs.Prelude.{◌≡◌, ◌∷◌, [], ◌++◌, ◌<◌, ℕ, List, All, IfOk, IfSome, OnOk, Some, length, slice_get, option_map};
ghost use Rattle.set_model.specs.Control.{mode_of};
ghost use Rattle.set_model.specs.Runnable.{IsRunnable, IsRunnableStep};
ghost use Rattle.key_answer.specs.Origin.{lines_of};
ghost use Rattle.element_lines.specs.Additions.{AdditionsTell, AreAdditionsOf, all_of, noted_addition, places_of, step_at};
ghost use Rattle.element_lines.specs.ElementLines.{addition_text, element_line, made_text, noted_lines};

use crate::steps::{one_a_line, sets_of, steps_of};
use element_text::{write_comment, write_intervals};
use key_answer::{Lines as Places, trace_script};
use packet_pool::OpenGate;
use set_model::{
    Duplicate, Keys, Line, Lines, Memory, Schema, Script, Sections, Step, Steps, Verdict,
};
use std::alloc::Global;
use std::marker::Model;
use text_pieces::Piece::{Number, Packet, Word};
use text_pieces::append_pieces;

/// The additions of a script by the sets and ids of the elements that they made, and the sets of the packets of a key file.
#[derive(Drop)]
pub struct Additions {
    schema: Schema,
    steps: Steps,
    places: Places,
    sets: Vec<u32>,
}

impl Model for Additions {
    ghost use Rattle.std.specs.Prelude.{All};
    ghost use Rattle.set_model.specs.Runnable.{IsRunnableStep};
    ghost use Rattle.element_lines.specs.Additions.{Additions as Noted};

    ghost Value = { Noted };

    ghost view = { λ a. record { schema = a.schema; steps = a.steps; places = a.places; sets = a.sets.items } };

    ghost invariant = { λ a. All (IsRunnableStep a.schema) a.steps };
}

/// The places of the steps that made the elements of each set, by the elements' ids. The script is run once more.
fn places_in(
    alloc: Global,
    schema: &Schema,
    steps: &Steps,
    keep_going: bool,
) -> Result<Places, Memory>
    requires { IsRunnable (record { schema = schema.now; sections = steps.now ∷ []; last = 0 }) }
    ensures { IfOk result (λ places. (set : ℕ) → set < length schema.now → lines_of places set ≡ places_of (mode_of keep_going) schema.now steps.now set) }
{
    let mut sections = Sections::new(alloc);
    sections.push(one_a_line(alloc, steps)?)?;
    let apart = Script {
        schema: schema.copy(alloc)?,
        sections,
        last: 0,
    };
    Ok(trace_script(alloc, &apart, keep_going, &OpenGate)?.lines)
}

/// Appends an addition of a script over declared sets: ` { 192.0.2.0/24 . 80-443 comment "web" } line 6`.
fn write_addition(schema: &Schema, step: &Step, out: &mut Vec<u8>) -> Result<(), Memory>
    requires { IsRunnableStep schema.now step.now }
    ensures { OnOk result (out.new.items ≡ out.old.items ++ addition_text schema.now (Some step.now)) }
{
    let Step::Change {
        line,
        set,
        element,
        ..
    } = step
    else {
        return Ok(());
    };
    let kinds = schema.at(u64::from(*set)).kinds.as_slice();
    append_pieces(&[Word(b" { ")], out)?;
    write_intervals(kinds, element.parts.as_slice(), out)?;
    write_comment(element.comment.as_slice(), out)?;
    append_pieces(&[Word(b" } line "), Number(*line)], out)
}

impl Additions {
    /// Notes the additions of a script, and the sets of a key file's packets. The script is run once more, without packets.
    ///
    /// # Errors
    ///
    /// `Memory` if memory runs out.
    pub fn new(
        alloc: Global,
        script: &Script,
        keys: &Keys,
        keep_going: bool,
    ) -> Result<Additions, Memory>
        requires { IsRunnable script.now }
        ensures { IfOk result (λ a. AreAdditionsOf (mode_of keep_going) script.now keys.now a) }
    {
        let steps = steps_of(alloc, &script.sections)?;
        let places = places_in(alloc, &script.schema, &steps, keep_going)?;
        let sets = sets_of(alloc, keys)?;
        Ok(Additions {
            schema: script.schema.copy(alloc)?,
            steps,
            places,
            sets,
        })
    }

    /// The step that made the element of an id in a set.
    fn made(&self, set: u32, id: u64) -> Option<&Step>
        ensures step { option_map (λ step. step.now) result ≡ noted_addition self.now set id }
        ensures runnable { IfSome result (λ step. IsRunnableStep self.now.schema step.now) }
    {
        let place = *self.places.of(set).get(id as usize)?;
        self.steps.as_slice().get(place as usize)
    }

    /// Appends the addition that made the element of an id in a packet's set, if there is one.
    fn write_made(&self, packet: u64, id: u64, out: &mut Vec<u8>) -> Result<(), Memory>
        ensures { OnOk result (out.new.items ≡ out.old.items ++ made_text self.now.schema (noted_addition self.now) self.now.sets id (slice_get self.now.sets packet)) }
    {
        let Some(set) = self.sets.get(packet as usize) else {
            return Ok(());
        };
        match self.made(*set, id) {
            None => Ok(()),
            Some(step) => write_addition(&self.schema, step, out),
        }
    }

    /// Appends the line of a packet.
    fn write_line(&self, line: &Line, out: &mut Vec<u8>) -> Result<(), Memory>
        ensures { OnOk result (out.new.items ≡ out.old.items ++ element_line self.now.schema (noted_addition self.now) self.now.sets line.now) }
    {
        match line.verdict {
            Verdict::None => append_pieces(&[Packet(line), Word(b" none\n")], out),
            Verdict::Element { id } => {
                append_pieces(&[Packet(line), Word(b" element "), Number(id)], out)?;
                self.write_made(line.packet, id, out)?;
                append_pieces(&[Word(b"\n")], out)
            }
        }
    }

    /// Appends the lines of packets, in their order. If a packet found an element, its addition comes after it:
    /// `packet 0 thread 0 generation 1 element 0 { 192.0.2.0/24 . 80-443 comment "web" } line 6`.
    ///
    /// # Errors
    ///
    /// `Memory` if memory runs out.
    pub fn write(&self, lines: &Lines, out: &mut Vec<u8>) -> Result<(), Memory>
        ensures { OnOk result (out.new.items ≡ out.old.items ++ noted_lines self.now lines.now) }
    {
        'lines: for line in lines.as_slice() {
            self.write_line(line, out)?;
        }
        Ok(())
    }
}

/// Each element of each generation that a script commits has the intervals and the comment of the addition of its id. So what is
/// written after a verdict is the element that the line's generation has with this id.
pub fn additions_law()
    ensures { AdditionsTell }
{}
