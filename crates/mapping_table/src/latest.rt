ghost use Rattle.std.specs.Prelude.{◌≡◌, ◌+◌, ◌-◌, ◌*◌, ◌/◌, ◌<◌, ◌≤◌, ◌^◌, ◌↔◌, length, max, IsTrue};
ghost use Rattle.std.specs.Vec.{vec_capacity};
ghost use Rattle.mapping_table.specs.Spared.{word_of};
ghost use Rattle.mapping_table.specs.Latest.{latest_end, AreRaised, AreFound};

use crate::roomy::Roomy;
use set_model::expiry_moment;
use set_tables::End;

/// Whether each expiry up to `moment` has come at `now`. This is never so for the last moment,
/// which also represents no expiry.
#[inline(always)]
pub(crate) fn is_past(moment: u64, now: u64) -> bool
    ensures { IsTrue result ↔ (moment < 2 ^ 64 - 1) × (moment ≤ now) }
{
    moment != u64::MAX && moment <= now
}

/// The latest expiry of the ends of word `w`.
fn latest_end(ends: &Roomy<End>, w: u32) -> u64
    requires { 64 * w < length ends.now.items }
    ensures { result ≡ latest_end (word_of w ends.now.items) }
{
    let len = ends.len();
    let first = 64 * w;
    let count = (len - first).min(64);
    let mut latest = 0;
    'ends: for i in first..first + count {
        latest = latest.max(expiry_moment(ends.at(i).expiry));
    }
    latest
}

/// Raises the moment of word `w`. After the last word it adds a new moment, for which there must be
/// room.
pub(crate) fn raise_word(latest: &mut Vec<u64>, w: usize, moment: u64)
    requires place { w ≤ length latest.old.items }
    requires room { w < vec_capacity latest.old }
    ensures items { AreRaised w (w + 1) moment latest.old.items latest.new.items }
    ensures len { length latest.new.items ≡ max (length latest.old.items) (w + 1) }
    ensures capacity { vec_capacity latest.new ≡ vec_capacity latest.old }
{
    if w == latest.len() {
        latest.push_reserved(moment);
    } else {
        raise(latest, w, w + 1, moment);
    }
}

/// Raises the moments of the words from `from` up to `to`.
pub(crate) fn raise(latest: &mut Vec<u64>, from: usize, to: usize, moment: u64)
    requires order { from ≤ to }
    requires within { to ≤ length latest.old.items }
    ensures items { AreRaised from to moment latest.old.items latest.new.items }
    ensures len { length latest.new.items ≡ length latest.old.items }
    ensures capacity { vec_capacity latest.new ≡ vec_capacity latest.old }
{
    'words: for w in from..to {
        latest[w] = latest[w].max(moment);
    }
}

/// Finds the moments of the words from `from` on anew, after rules were removed.
pub(crate) fn find_latest(ends: &Roomy<End>, latest: &mut Vec<u64>, from: u32)
    requires from { 64 * from ≤ length ends.now.items + 63 }
    requires words { length ends.now.items ≤ 64 * length latest.old.items }
    ensures items { AreFound ends.now.items from latest.old.items latest.new.items }
    ensures capacity { vec_capacity latest.new ≡ vec_capacity latest.old }
{
    let words = ends.len().div_ceil(64);
    latest.truncate(words as usize);
    'words: for w in from..words {
        latest[w as usize] = latest_end(ends, w);
    }
}
