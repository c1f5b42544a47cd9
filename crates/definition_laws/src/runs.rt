// Laws over whole runs.
ghost use Rattle.join_core.specs.Runs.{GivesAll, AsksAll, EndsWhole};

/// Over every list of events, the rows given and those still owed are the solutions. So where a
/// join is done, the rows given are the solutions, each as often as SPARQL counts it.
pub fn a_run_gives_the_solutions()
    ensures given { GivesAll }
    ensures whole { EndsWhole }
{}

/// Over every list of events, the addresses handed out and those still to be handed out are the
/// plan.
pub fn a_run_asks_the_plan()
    ensures { AsksAll }
{}
