ghost use Rattle.std.specs.Prelude.{◌≡◌, ◌≤◌, true, length, take};
ghost use Rattle.set_model.specs.Key.{key_fits, parts_fit, start_key, end_key};
ghost use Rattle.pipapo_image.specs.Image.Found.{IsPlace};

use crate::image::SetImage;
use crate::image::among::Sought;
use crate::index::scratch::Scratch;
use set_model::Parts;

/// The key with which intervals start, and then zeros.
pub(crate) fn starts(parts: &Parts) -> [u128; 16]
    requires { length parts.now ≤ 16 }
    ensures { take (length parts.now) result ≡ start_key parts.now }
{
    let mut lows = [0; 16];
    'fields: for f in 0..parts.len() {
        lows[f as usize] = parts.at(f).low;
    }
    lows
}

/// The key with which intervals end, and then zeros.
fn ends(parts: &Parts) -> [u128; 16]
    requires { length parts.now ≤ 16 }
    ensures { take (length parts.now) result ≡ end_key parts.now }
{
    let mut highs = [0; 16];
    'fields: for f in 0..parts.len() {
        highs[f as usize] = parts.at(f).high;
    }
    highs
}

impl SetImage {
    /// The place of the first live element that holds the start key.
    pub(crate) fn start_place(&self, parts: &Parts, now: u64, scratch: &mut Scratch) -> Option<u64>
        requires { parts_fit self.now.kinds parts.now ≡ true }
        ensures { IsPlace self.now (start_key parts.now) now result }
    {
        let _kinds = self.kinds.len();
        let lows = starts(parts);
        self.holder_place(&lows[..parts.len() as usize], now, scratch)
    }

    /// The place of the first live element that holds the end key.
    pub(crate) fn end_place(&self, parts: &Parts, now: u64, scratch: &mut Scratch) -> Option<u64>
        requires { parts_fit self.now.kinds parts.now ≡ true }
        ensures { IsPlace self.now (end_key parts.now) now result }
    {
        let _kinds = self.kinds.len();
        let highs = ends(parts);
        self.holder_place(&highs[..parts.len() as usize], now, scratch)
    }

    /// The place of the first live element that holds the key. If few rules of the last field hold
    /// the key's value there, their elements are compared with the key. Else it is a lookup.
    fn holder_place(&self, key: &[u128], now: u64, scratch: &mut Scratch) -> Option<u64>
        requires { key_fits self.now.kinds key.now ≡ true }
        ensures { IsPlace self.now key.now now result }
    {
        let row = &mut scratch.row;
        if self.index.is_key_narrow(key, row) {
            return self.first_among(row, &Sought::Holding(key), now);
        }
        self.place(key, now, scratch)
    }
}
