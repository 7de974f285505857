//! The laws of the counter's rule, which no call's contract names. They say what the rule means for the
//! word, and that each kind of step keeps the rule, in every interleaving. The word has no other steps.
ghost use Rattle.packet_pool.specs.CounterLaws.{DrawnOnce, NoOthers, NeverWraps, Opens, DrawKeeps, SplitKeeps, JoinKeeps, CountKeeps};

/// What holds of the word and of what the seats have drawn, between any two steps.
pub fn drawn_numbers()
    ensures once { DrawnOnce }
    ensures no_others { NoOthers }
    ensures no_wrap { NeverWraps }
{}

/// The counter at the start meets the rule, and each kind of step keeps it.
pub fn every_step()
    ensures opening { Opens }
    ensures draw { DrawKeeps }
    ensures split { SplitKeeps }
    ensures join { JoinKeeps }
    ensures count { CountKeeps }
{}
