ghost use Rattle.std.specs.Prelude.{◌≡◌, ◌≤◌, IfSome};
ghost use Rattle.addr_text.specs.Times.{longest_time};
ghost use Rattle.token_forms.specs.Gives.{Gives};
ghost use Rattle.set_script.specs.ScriptReading as reading;
ghost use Rattle.set_script.specs.Limits.{last_moment};
ghost use Rattle.set_script.specs.Values.{life_of, moment_of, size_of};

use crate::clock::{Moment, Time};
use addr_text::{read_number, read_time};
use token_forms::{ReadError, Reader, Reason};

/// The last moment that a text may name, in milliseconds.
const LAST_MOMENT: u64 = 1_000_000_000_000_000;

fn read_life(text: &[u8]) -> Option<u64>
    ensures value { result ≡ life_of text.now }
    ensures within { IfSome result (λ life. life ≤ longest_time) }
{
    if text == b"never".as_slice() {
        Some(0)
    } else {
        match read_time(text) {
            Ok(time) => Some(time),
            Err(_) => None,
        }
    }
}

/// The moment that a text names, if it isn't before another.
pub fn read_moment(before: u64, text: &[u8]) -> Option<u64>
    ensures value { result ≡ moment_of before text.now }
    ensures within { IfSome result (λ moment. moment ≤ last_moment) }
{
    match read_number(text, LAST_MOMENT) {
        Some(moment) if before <= moment => Some(moment),
        _ => None,
    }
}

fn read_size(text: &[u8]) -> Option<u32>
    ensures { result ≡ size_of text.now }
{
    match read_number(text, 0xffff_ffff) {
        Some(size) if 1 <= size => Some(size as u32),
        _ => None,
    }
}

/// Reads a time, in milliseconds.
#[tactic(auto, unfolding(token_forms::specs::Gives::Refuses))]
pub fn time(reader: &mut Reader) -> Result<Time, ReadError>
    ensures { Gives (λ x. x) result reader.new (reading.time reader.old) }
{
    let t = reader.next()?;
    match read_time(t.bytes) {
        Ok(time) if t.is_word() => Ok(Time::new(time)),
        _ => Err(t.refused(&[Reason::Time])),
    }
}

/// Reads a time or `never`, which is the time 0.
#[tactic(auto, unfolding(token_forms::specs::Gives::Refuses))]
pub fn life(reader: &mut Reader) -> Result<Time, ReadError>
    ensures { Gives (λ x. x) result reader.new (reading.life_word reader.old) }
{
    let t = reader.next()?;
    match read_life(t.bytes) {
        Some(time) if t.is_word() => Ok(Time::new(time)),
        _ => Err(t.refused(&[Reason::Time])),
    }
}

/// Reads a moment that isn't before another.
#[tactic(auto, unfolding(token_forms::specs::Gives::Refuses))]
pub fn moment(reader: &mut Reader, before: Moment) -> Result<Moment, ReadError>
    ensures { Gives (λ x. x) result reader.new (reading.moment_word before reader.old) }
{
    let t = reader.next()?;
    match read_moment(before.ms(), t.bytes) {
        Some(moment) if t.is_word() => Ok(Moment::new(moment)),
        _ => Err(t.refused(&[Reason::Moment])),
    }
}

/// Reads how many elements a set may have.
#[tactic(auto, unfolding(token_forms::specs::Gives::Refuses))]
pub fn size(reader: &mut Reader) -> Result<u32, ReadError>
    ensures { Gives (λ x. x) result reader.new (reading.size_word reader.old) }
{
    let t = reader.next()?;
    match read_size(t.bytes) {
        Some(size) if t.is_word() => Ok(size),
        _ => Err(t.refused(&[Reason::Number])),
    }
}
