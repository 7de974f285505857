// The kinds of step on the table, each with its clause.
ghost use Rattle.std.specs.Prelude.{◌+◌, []};
ghost use Rattle.gen_slots.specs.SlotSteps.{entered, left, checked, published, learned, given_one, next_reader};
ghost use Rattle.gen_slots.specs.SlotRule.{seat_view};
ghost use Rattle.gen_slots.specs.declared.board.Role.TheVariants.{Idle};

use crate::Version;
use crate::board::SeatView;
use atomic_table::{Join, Play, Split};

// 256 is added to word 0: the reader holds the slot that word 0 named.
pub(crate) struct Enter;

impl<T: Version> Play<Option<T>, SeatView<T::State>> for Enter {
    ghost then = { entered T.state T.follows };
}

// 256 is added to the done word of the slot that the reader holds.
pub(crate) struct Leave;

impl<T: Version> Play<Option<T>, SeatView<T::State>> for Leave {
    ghost then = { left };
}

// The writer loads the done word of a slot that is not published.
pub(crate) struct Check;

impl<T: Version> Play<Option<T>, SeatView<T::State>> for Check {
    ghost then = { checked T.state };
}

// The writer swaps word 0.
pub(crate) struct Publish;

impl<T: Version> Play<Option<T>, SeatView<T::State>> for Publish {
    ghost then = { published T.state T.follows };
}

// A reader or the writer loads word 0 after it took a note in.
pub(crate) struct Learn;

impl<T: Version> Play<Option<T>, SeatView<T::State>> for Learn {
    ghost then = { learned T.follows };
}

// A reader is made.
pub(crate) struct Deal;

impl<X> Split<SeatView<X>> for Deal {
    ghost left = { λ d. seat_view (given_one d.role) d.seen d.told d.moves };

    ghost right = { λ d. seat_view (next_reader d.role) d.seen [] 0 };
}

// A note is made.
pub(crate) struct Tell;

impl<X> Split<SeatView<X>> for Tell {
    ghost left = { λ d. d };

    ghost right = { λ d. seat_view Idle d.seen [] 0 };
}

// A note is taken in.
pub(crate) struct Meet;

impl<X> Join<SeatView<X>> for Meet {
    ghost both = { λ d e. seat_view d.role d.seen e.seen (d.moves + e.moves) };

    ghost spent = { seat_view Idle [] [] 0 };
}
