ghost use Rattle.std.specs.Prelude.{◌≡◌, ◌<◌, ◌&&◌, nat_le, length};
ghost use Rattle.std.specs.List.{list_all, zip};
ghost use Rattle.set_model.specs.Key.{parts_hold, parts_share};
ghost use Rattle.set_model.specs.SetState.{element_at};
ghost use Rattle.pipapo_image.specs.Image.Among.{meets, is_sought, LeadsTo, IsFirst};

use crate::image::SetImage;
use crate::image::decision::is_same;
use bit_rows::BitRow;
use set_model::{Interval, is_live};

/// What is asked of the intervals of an element.
#[derive(Clone, Copy)]
pub(crate) enum Sought<'a> {
    /// They are exactly these.
    Exactly(&'a [Interval]),
    /// They hold this key.
    Holding(&'a [u128]),
    /// They share a key with these.
    Sharing(&'a [Interval]),
}

fn hold(parts: &[Interval], key: &[u128]) -> bool
    ensures { result ≡ parts_hold parts.now key.now }
{
    parts
        .iter()
        .zip(key.iter())
        .all(|(part, value)| part.low <= *value && *value <= part.high)
}

fn share(parts: &[Interval], others: &[Interval]) -> bool
    ensures { result ≡ parts_share parts.now others.now }
{
    parts
        .iter()
        .zip(others.iter())
        .all(|(x, y)| x.low <= y.high && y.low <= x.high)
}

/// Whether intervals are what is asked.
fn meet(sought: &Sought, parts: &[Interval]) -> bool
    ensures { result ≡ meets sought.now parts.now }
{
    match *sought {
        Sought::Exactly(others) => is_same(parts, others),
        Sought::Holding(key) => hold(parts, key),
        Sought::Sharing(others) => share(parts, others),
    }
}

impl SetImage {
    /// The place of the first element that is live at `now`, in milliseconds, and has the intervals
    /// that are asked for. The row has a rule of the last field for each such element. The set's
    /// other elements aren't looked at.
    pub(crate) fn first_among(&self, row: &BitRow, sought: &Sought, now: u64) -> Option<u64>
        requires { LeadsTo self.now (is_sought sought.now now) row.now.bits }
        ensures { IsFirst self.now (is_sought sought.now now) result }
    {
        let _rules = row.len();
        let mut from = 0;
        'rules: while let Some(r) = row.next_set(from) {
            let place = self.index.ends.at(r).place;
            if self.is_sought_at(place, sought, now) {
                return Some(place);
            }
            from = r + 1;
        }
        None
    }

    /// Whether the element at place `i` is live and has the intervals that are asked for.
    fn is_sought_at(&self, i: u64, sought: &Sought, now: u64) -> bool
        requires { i < length self.now.elements }
        ensures { result ≡ is_sought sought.now now (element_at self.now i) }
    {
        let element = self.elements.at(i);
        is_live(element.expiry, now) && meet(sought, element.parts.as_slice())
    }
}
