// Laws of runs.
ghost use Rattle.neph_model.specs.RunLaws.{HasOneRun, HasRun, EndsOverOrStalled, EndsOver, RunsLegally, RunsBearCopies, CountsAddUp};

/// No script has two runs.
pub fn one_run()
    ensures { HasOneRun }
{}

/// Each script that is well formed has a run.
pub fn some_run()
    ensures { HasRun }
{}

/// A run ends where no domain is live, or is stalled there.
pub fn ends_over_or_stalled()
    ensures { EndsOverOrStalled }
{}

/// The run of a script that is well formed doesn't stall, and ends with no live domain.
pub fn ends_over()
    ensures { EndsOver }
{}

/// The history of a run is a legal one.
pub fn runs_legally()
    ensures { RunsLegally }
{}

/// Each commit of a run leaves the child as the listed copy of its parent at that place.
pub fn runs_bear_copies()
    ensures { RunsBearCopies }
{}

/// The frames that a run's last machine uses and those that are free are all that it has.
pub fn counts_add_up()
    ensures { CountsAddUp }
{}
