// Laws of the tables. Each is the contract of a function that does nothing, so callers may cite it.
ghost use Rattle.set_tables.specs.Laws.{BlocksCover, RowsHoldCore, RowsHoldMarks, LookupFindsFirst, SplitsShare, WalkFindsSharing};

/// An interval holds a value exactly if some block of its split does.
pub fn cover_law()
    ensures { BlocksCover }
{}

/// A row is matched and refilled by any test on blocks. After a field it has the rules that pass
/// the field's test, of elements that passed all earlier fields.
pub fn probe_law()
    ensures { RowsHoldMarks }
{}

/// After a field, a lookup's row has the rules whose block holds the key's value there, of elements
/// that hold the key in all earlier fields.
pub fn core_law()
    ensures { RowsHoldCore }
{}

/// A lookup in the tables of a list of elements finds the place of the first element that is live
/// and holds the key.
pub fn lookup_law()
    ensures { LookupFindsFirst }
{}

/// Two intervals share a value exactly if a block of one split and a block of the other split do.
pub fn share_law()
    ensures { SplitsShare }
{}

/// A walk by intervals in the tables of a list of elements finds the place of the first element
/// that is live and shares a key with them.
pub fn sharing_law()
    ensures { WalkFindsSharing }
{}
