// The kinds of step on the table, each with its clause. They are a draw, a look at word 1, and the
// end of a turn by an enter or a publication. Views are also split and joined.
ghost use Rattle.gen_turns.specs.TurnRule.{listing};
ghost use Rattle.gen_turns.specs.TurnSteps.{drew, looked, entered, published, learned, given_one, next_reader, with_note};

use crate::Version;
use crate::board::{Places, SeatView};
use atomic_table::{Join, Play, Split};

// 1 is added to word 0. The old word is the ticket.
pub(crate) struct Draw;

impl<T: Version> Play<Option<Places<T>>, SeatView<T, T::State>> for Draw {
    ghost then = { drew };
}

// A seat with a ticket loads word 1. It takes the vector if its ticket is served.
pub(crate) struct Look;

impl<T: Version> Play<Option<Places<T>>, SeatView<T, T::State>> for Look {
    ghost then = { looked T.state T.follows };
}

// Word 1 is loaded after a note was taken in.
pub(crate) struct Learn;

impl<T: Version> Play<Option<Places<T>>, SeatView<T, T::State>> for Learn {
    ghost then = { learned T.follows };
}

// A reader entered, and stores the next ticket in word 1.
pub(crate) struct EndEnter;

impl<T: Version> Play<Option<Places<T>>, SeatView<T, T::State>> for EndEnter {
    ghost then = { entered };
}

// The writer published, and stores the next ticket in word 1.
pub(crate) struct EndPublish;

impl<T: Version> Play<Option<Places<T>>, SeatView<T, T::State>> for EndPublish {
    ghost then = { published T.state T.follows };
}

// A reader is made.
pub(crate) struct Deal;

impl<T, X> Split<SeatView<T, X>> for Deal {
    ghost left = { given_one };

    ghost right = { next_reader };
}

// A note is made.
pub(crate) struct Tell;

impl<T, X> Split<SeatView<T, X>> for Tell {
    ghost left = { λ d. d };

    ghost right = { λ d. listing d.seen };
}

// A note is taken in.
pub(crate) struct Meet;

impl<T, X> Join<SeatView<T, X>> for Meet {
    ghost use Rattle.std.specs.Prelude.{[]};

    ghost both = { λ d e. with_note d e.seen };

    ghost spent = { listing [] };
}
