ghost use Rattle.std.specs.Prelude.{◌≡◌, ◌↔◌, IsTrue};

use pipapo_image::SetImage;

/// Whether two sets have the same kinds, in the same order. Only such sets are compared.
pub fn have_same_kinds(first: &SetImage, second: &SetImage) -> bool
    ensures { IsTrue result ↔ (first.now.kinds ≡ second.now.kinds) }
{
    let kinds = first.kinds().as_slice();
    let others = second.kinds().as_slice();
    if kinds.len() != others.len() {
        return false;
    }
    'kinds: for f in 0..kinds.len() {
        if kinds[f] != others[f] {
            return false;
        }
    }
    true
}
