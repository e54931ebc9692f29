//! The laws of idle cycles: in which cycles of a run no event falls, so that an engine may leave them out.
//!
//! Each event of a row sets times at which something can change: the cycle after it, those in which its
//! share of the dispatch width falls, its completion, the cycles in which its uses give their units back,
//! and the cycle in which a row that reads its value has its operands. In a cycle in which none of these
//! times falls no row dispatches, issues or retires. Each law is a function that does nothing.
//!
//! | file | what it says |
//! |---|---|
//! | `Due` | the times that a row sets, in which cycles one falls due, and how many turns are left |
//! | `Clear` | what an engine has to know of each row before it goes on to a later cycle |
//! | `Skip` | what an engine may leave out of a cycle, and what an event changes |
//! | `Parts` | what the units and the dispatch group rest on where cycles are left out |
#![tactic(auto)]

ghost use Rattle.event_rules.specs.Due.{QuietCycles, NextTurn, NoTurn, FewTurns, EachTurn, DueIsSet};
ghost use Rattle.event_rules.specs.Clear.{ClearCycles, SetTime};
ghost use Rattle.event_rules.specs.Parts.{KeptPick, StaysBlocked, ChangeTold, SharesFall};
ghost use Rattle.event_rules.specs.Skip.{SkipRetired, SkipRetires, SkipUnready, SkipDispatched, SkipDispatches, EventFalls, EventWaits, ReadyStays, ReadyUnknown, AfterEvent};

/// In cycles in which nothing falls due no event falls. So an engine may go from one cycle in which
/// something falls due to the next, and where it turns in these alone it has at most `turn_bound` turns.
pub fn quiet_cycles()
    ensures quiet { QuietCycles }
    ensures next { NextTurn }
    ensures none { NoTurn }
    ensures few { FewTurns }
    ensures each { EachTurn }
    ensures set { DueIsSet }
    ensures clear { ClearCycles }
    ensures time { SetTime }
{}

/// What an engine may leave out of a cycle: the rows behind one that may not retire or dispatch, and
/// those whose operands are not ready.
pub fn skipped_rows()
    ensures retired { SkipRetired }
    ensures retires { SkipRetires }
    ensures unready { SkipUnready }
    ensures dispatched { SkipDispatched }
    ensures dispatches { SkipDispatches }
    ensures falls { EventFalls }
    ensures waits { EventWaits }
    ensures ready { ReadyStays }
    ensures unknown { ReadyUnknown }
    ensures after { AfterEvent }
{}

/// What the units and the dispatch group rest on where cycles are left out.
pub fn kept_parts()
    ensures pick { KeptPick }
    ensures blocked { StaysBlocked }
    ensures change { ChangeTold }
    ensures shares { SharesFall }
{}
