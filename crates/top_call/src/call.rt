//! A call of the program: its words, as the system gives them, and what the program does with them.
ghost use Rattle.std.specs.Prelude.{◌≡◌, ◌≢◌, [], drop, map, IsErr, IsOkAnd, IfOk, IfErr, OnErr};
ghost use Rattle.std.specs.String.{string_bytes};
ghost use Rattle.std.specs.IoError.{error_kind};
ghost use Rattle.std.specs.Vec.Iter.{into_iter_items};
ghost use Rattle.std.specs.declared.io.ErrorKind.TheVariants.{OutOfMemory};
ghost use Rattle.command_words.specs.FormOptions.{forms_of, without_options};
ghost use Rattle.top_call.specs.Forms.{InForm};
ghost use Rattle.top_call.specs.Promises.{Promises};

use crate::command::pipapo;
use command_words::take_forms;
use packet_pool::Gate;
use pip_base::{Notes, Shelf, Sink};
use set_model::Memory;
use std::alloc::{AllocError, Global};
use std::env::Args;
use std::io;
use std::sync::Wait;
use std::thread::Threads;

/// All words but the first, which is the program's name.
fn without_first(alloc: Global, all: Args) -> Result<Vec<String>, AllocError>
    ensures { IfOk result (λ words. words.items ≡ drop 1 (into_iter_items all)) }
{
    all.skip(1).collect(alloc)
}

/// The words after the program's name. If the system can't give them, as one isn't UTF-8, there are none.
///
/// # Errors
///
/// `Memory` if memory runs out.
pub fn words_behind(alloc: Global, told: io::Result<Args>) -> Result<Vec<String>, Memory>
    ensures words { IfOk told (λ all. IfOk result (λ words. words.items ≡ drop 1 (into_iter_items all))) }
    ensures memory { IfErr told (λ error. error_kind error ≡ OutOfMemory → IsErr result) }
    ensures none { IfErr told (λ error. error_kind error ≢ OutOfMemory → IsOkAnd result (λ words. words.items ≡ [])) }
{
    match told {
        Ok(all) => Ok(without_first(alloc, all)?),
        Err(error) if error.kind() == io::ErrorKind::OutOfMemory => Err(Memory),
        Err(_) => Ok(Vec::new(alloc)),
    }
}

/// Does what the words ask for, and returns the status. With the option `--sets` among the words, the scripts of their
/// command are rulesets: of each, what is kept is the script. With `--elements` the line of a packet has the element that
/// was found, and with `--json` the answer is JSON. If memory ran out for the words, the status is 7: no file is asked for, and nothing is written. The `gate`
/// learns how far the run is.
pub fn call<R: Threads + Wait + Sync, F: Shelf, K: Sink, N: Notes, G: Gate>(
    rt: &R,
    alloc: Global,
    words: Result<Vec<String>, Memory>,
    shelf: &mut F,
    sink: &mut K,
    notes: &mut N,
    gate: &G,
) -> u8
    requires { F.asked shelf.old ≡ [] }
    ensures promises { IfOk words (λ told. InForm (forms_of (map string_bytes told.items)).scripts (record { words = without_options (map string_bytes told.items); answer = (forms_of (map string_bytes told.items)).answer; shelf = record { told = F.told shelf.old; asked = F.asked shelf.new; faults_before = F.faults shelf.old; faults_now = F.faults shelf.new; picked_before = F.is_picked shelf.old; picked_now = F.is_picked shelf.new; left = F.left shelf.new }; taken_before = K.taken sink.old; taken_now = K.taken sink.new; faults_before = K.faults sink.old; faults_now = K.faults sink.new; noted_before = N.told notes.old; noted_now = N.told notes.new; status = result }) Promises) }
    ensures memory { OnErr words ((result ≡ 7) × (shelf.new ≡ shelf.old) × (sink.new ≡ sink.old) × (notes.new ≡ notes.old)) }
{
    match words {
        Ok(mut words) => {
            let forms = take_forms(&mut words);
            pipapo(rt, alloc, words.as_slice(), forms, shelf, sink, notes, gate)
        }
        Err(_) => 7,
    }
}
