//! Laws of a ticket lock's line, whatever it locks: seats draw tickets, wait until theirs is
//! served, and are done.
//!
//! ```text
//!                             word 0, next   word 1, served   the line
//! start                       0              0                empty
//! seat 4 draws ticket 0       1              0                4
//! seat 7 draws ticket 1       2              0                4, 7
//! seat 4 finds 0, is served   2              0                4, 7
//! seat 4 is done              2              1                7
//! ```
//!
//! Each step keeps the line: its seats have exactly the tickets from the served one up to the next
//! one, and only the first may be served (`every_step`).
//!
//! **Definitions:** `specs/Tickets.antt` is the line, and `LineLaws.antt` what each step does to
//! it. **Theory:** docs/architecture.md, "The plain representation" and "Several control threads".
//! **Proofs:** docs/proofs.md, "Several control threads (`ticket_line`, `log_turns`,
//! `control_desk`)".
#![tactic(auto)]

ghost use Rattle.ticket_line.specs.LineLaws.{Opens, DrawKeeps, LookKeeps, DoneKeeps, RestKeeps, StayKeeps, SeatKeeps};

/// The line holds at the start, and each step keeps it. The steps are a draw, a look of a seat at
/// its own ticket, and the end of its turn. A seat may also get another view, either without a
/// ticket or with the same ticket, and a seat may be added.
pub fn every_step<D>()
    ensures opening { Opens D }
    ensures draw { DrawKeeps D }
    ensures look { LookKeeps D }
    ensures done { DoneKeeps D }
    ensures rest { RestKeeps D }
    ensures stay { StayKeeps D }
    ensures seat { SeatKeeps D }
{}
