// A law of the definition. It is the contract of a function that does nothing, so callers may cite
// it.
ghost use Rattle.set_space.specs.Unchanged.{KeepsUnchanged};

/// A set without an open change and without an expired element is the same in the next generation.
pub fn unchanged_law()
    ensures { KeepsUnchanged }
{}
