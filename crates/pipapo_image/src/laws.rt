// Laws of the definition. Each is the contract of a function that does nothing, so callers may cite
// it.
ghost use Rattle.pipapo_image.specs.Image.Accepted.{ShowsAccepted};
ghost use Rattle.pipapo_image.specs.Image.Apart.{KeepsApart};

/// The live elements of a disjoint set share no key from the moment of the latest addition or
/// renewal on. If moments never fall, this is every moment at which the set is looked at.
///
/// At an earlier moment two elements may share a key. The first had expired when the second was
/// added, but was still live at the earlier moment.
pub fn apart_law()
    ensures { KeepsApart }
{}

/// No accepted element is wholly hidden by earlier ones. At the moment of its addition a lookup of
/// its start key finds it, unless its expiry isn't after that moment.
///
/// An addition is refused if a live element with other intervals holds the start key. In a disjoint
/// set that element shares a key.
pub fn accepted_law()
    ensures { ShowsAccepted }
{}
