//! What a listing means when it is read again.
//!
//! A listing names each element of a set with the time that it has left. Say that a set of ports is listed at moment
//! 1,000, and has these three elements:
//!
//!     id 4    80-90     expires at 3,000    listed as `80-90 expires 2s`
//!     id 6    100       expired at 900      listed as `100 expires 0s`
//!     id 7    1-1000    never expires       listed as `1-1000`
//!
//! Read again, these are three additions at moment 0 to an empty set. None is refused: no live element holds the first or
//! the last port of a later one. They get the ids 0, 1 and 2 in their order, and expire at 2,000, at 0 and never. The
//! commit at moment 0 removes the second, which had no time left. A lookup at moment 500 then finds what a lookup in the
//! listed set finds at moment 1,500.
//!
//! [`relisted_law`] says so of each set whose live elements aren't in the way of later ones. [`history_law`] says that the
//! sets of a script are such sets if its moments never fall, and [`listing_law`] that those of a text never do.
//!
//! [`listing_text_law`] is on the bytes. The text that `list` prints is in the grammar of scripts: its events are comments, and
//! it means the declarations of its sets, table by table. Then come these additions in one section. [`listing_run_law`] runs
//! that script: it gives the listed sets, as the commit leaves them. A listing whose sets have no elements has no commit.
//!
//! [`listing_text_law`] requires sets that a text can say. [`listable_law`] says that the sets of every script are such sets.
//! So [`listed_script_law`] requires nothing of the sets: what `list` prints of a script is a script, and that script gives the
//! listed sets.
//!
//! **Definitions:** `specs/Relisted.antt` says what a listing keeps of a set, `specs/Rising.antt` when moments never fall,
//! `specs/Listed.antt` what follows for a text, and `specs/Listing.antt` which script a listing's text means.
#![tactic(auto)]

mod laws;

pub use laws::{
    history_law, listable_law, listed_script_law, listing_law, listing_run_law, listing_text_law,
    relisted_law,
};
