// Laws of the definitions. Each is the contract of a function that does nothing, so callers may cite it.
ghost use Rattle.listing_laws.specs.Listed.{ListingIsSayable, ListingIsScript, ListingReadsBack};
ghost use Rattle.listing_laws.specs.Listing.{ListingMeans, ListingRuns};
ghost use Rattle.listing_laws.specs.Relisted.{GrownReadsBack};
ghost use Rattle.listing_laws.specs.Rising.{HistoryReadsBack};

/// The elements that a listing names give the same set again, if they are added to an empty one.
pub fn relisted_law()
    ensures { GrownReadsBack }
{}

/// The sets of a script's last generation are such sets, at any moment that isn't before its steps.
pub fn history_law()
    ensures { HistoryReadsBack }
{}

/// So are the sets that `list` prints of any script's text.
pub fn listing_law()
    ensures { ListingReadsBack }
{}

/// The text that `list` prints is a script: it declares the listed sets, table by table, and adds their elements at moment
/// 0. The events before it are comments.
pub fn listing_text_law()
    ensures { ListingMeans }
{}

/// Run from generation 0 on, that script gives the listed sets, as its commit leaves them.
pub fn listing_run_law()
    ensures { ListingRuns }
{}

/// A listing can say the sets of any script's last generation: the sets that `list` prints are such as `listing_text_law`
/// requires.
pub fn listable_law()
    ensures { ListingIsSayable }
{}

/// What `list` prints of any script's text is a script again. It states the listed sets, and run from generation 0 on it gives
/// them, as its commit leaves them.
pub fn listed_script_law()
    ensures { ListingIsScript }
{}
