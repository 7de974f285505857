//! The laws of the rule, which no call's contract names. They say what the rule says of the
//! tickets, the vector and the seats, and that each kind of step keeps it in every interleaving.
//! There is no other step on a word.
ghost use Rattle.gen_turns.specs.RuleLaws.{Queues, HandsOn, Seats, Opens, DrawKeeps, LookKeeps, EnterKeeps, PublishKeeps, DealKeeps, TellKeeps, MeetKeeps, LearnKeeps};

use crate::Version;

/// What holds of the words, the vector and the seats between any two steps.
pub fn running_words<T: Version>()
    ensures tickets { Queues T.state T.follows }
    ensures vector { HandsOn T.state T.follows }
    ensures seats { Seats T.state T.follows }
{}

/// The table at the start meets the rule, and each kind of step keeps it. The steps are a draw, a
/// look at a ticket, and the end of a turn by an enter or a publication. The others are a split for
/// a reader or a note, a join, and the look after it.
pub fn every_step<T: Version>()
    ensures opening { Opens T.state T.follows }
    ensures draw { DrawKeeps T.state T.follows }
    ensures look { LookKeeps T.state T.follows }
    ensures end_enter { EnterKeeps T.state T.follows }
    ensures end_publish { PublishKeeps T.state T.follows }
    ensures split_reader { DealKeeps T.state T.follows }
    ensures split_note { TellKeeps T.state T.follows }
    ensures join { MeetKeeps T.state T.follows }
    ensures learn { LearnKeeps T.state T.follows }
{}
