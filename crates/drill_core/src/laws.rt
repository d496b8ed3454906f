//! Laws of the calls and reopenings of a world.
ghost use Rattle.drill_core.specs.Drills.{DrillsBegin, DrillsCall, DrillsFail, DrillsReopen, DrillsStop, FaultsAreSet};
ghost use Rattle.drill_core.specs.Faults.{FaultsAreCounted};

use store_machine::runs_join;

/// Each call that is answered that a disk failed had a failed call of one of the two disks.
pub fn disk_faults_are_counted()
    ensures { FaultsAreCounted }
{}

/// All events of a world, reopenings included, are one run. Without a stop, there are since the last reopening no more
/// answers that a disk failed than failures set on either disk.
pub fn drills_are_runs()
    ensures begins { DrillsBegin }
    ensures calls { DrillsCall }
    ensures fails { DrillsFail }
    ensures stops { DrillsStop }
    ensures reopens { DrillsReopen }
    ensures faults { FaultsAreSet }
{
    disk_faults_are_counted();
    runs_join();
}
