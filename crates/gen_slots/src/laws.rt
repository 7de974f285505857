//! The laws of the rule, which no call's contract names. They say what the rule says of the running
//! words, and that each kind of step keeps it in every interleaving. There is no other step on a
//! word.
ghost use Rattle.gen_slots.specs.RuleLaws.{Counts, HoldsSafely, Seats, Opens, EnterKeeps, LeaveKeeps, CheckKeeps, PublishKeeps, DealKeeps, TellKeeps, MeetKeeps, LearnKeeps};

use crate::Version;

/// What holds of the words and the seats between any two steps.
pub fn running_words<T: Version>()
    ensures counts { Counts T.state T.follows }
    ensures no_refill { HoldsSafely T.state T.follows }
    ensures seats { Seats T.state T.follows }
{}

/// The table at the start meets the rule, and each kind of step keeps it.
pub fn every_step<T: Version>()
    ensures opening { Opens T.state T.follows }
    ensures enter { EnterKeeps T.state T.follows }
    ensures leave { LeaveKeeps T.state T.follows }
    ensures check { CheckKeeps T.state T.follows }
    ensures publish { PublishKeeps T.state T.follows }
    ensures split_reader { DealKeeps T.state T.follows }
    ensures split_note { TellKeeps T.state T.follows }
    ensures join { MeetKeeps T.state T.follows }
    ensures learn { LearnKeeps T.state T.follows }
{}
