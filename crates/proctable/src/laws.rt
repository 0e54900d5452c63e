//! What changes of a table of processes leave and keep: laws over the definitions alone. Nothing here runs.
ghost use Rattle.std.specs.Prelude.{◌≡◌};
ghost use Rattle.proctable.specs.TableLaws.{AddedLeaves, ExitedLeaves, EndedLeaves, EndedIsEmpty, FoundHasPid};
ghost use Rattle.proctable.specs.TableLaws.{PidIsGiven};
ghost use Rattle.proctable.specs.TableLaws.{NoneWhereNoneCounted, NoneCountedWhereNone, LiveBelong};
ghost use Rattle.proctable.specs.TableLaws.{EmptyOnceFirstEnded};
ghost use Rattle.proctable.specs.TableLaws.{ChangesStayWellFormed, FirstIsWellFormed};

use crate::LAST_PID;

/// What each change leaves of a table.
pub fn changes()
    ensures added { AddedLeaves }
    ensures exited { ExitedLeaves }
    ensures ended { EndedLeaves }
    ensures ended_empty { EndedIsEmpty }
{}

/// What holds of each table that calls can make.
pub fn well_formed()
    ensures first { FirstIsWellFormed }
    ensures stays { ChangesStayWellFormed }
    ensures belong { LiveBelong }
    ensures empty { EmptyOnceFirstEnded }
    ensures pid { FoundHasPid }
    ensures given { PidIsGiven }
    ensures uncounted { NoneWhereNoneCounted }
    ensures none { NoneCountedWhereNone }
{}

/// Each pid is at most 4,194,303.
pub fn the_limits()
    ensures pids { LAST_PID ≡ 4_194_303 }
{}
