// Statements about the definitions, each for every type of states.
ghost use Rattle.filter.specs.Examples.{WorkedRun};
ghost use Rattle.filter.specs.RefusalExamples.{WorkedRefusals};
ghost use Rattle.filter.specs.Theorems.{EveryCallHasAReply, ARefusedCallChangesNothing, AHoldFreesNothing, NoPathIsLongerThanTheNodesInUse, EveryStepKeepsSoundness, EveryStepBalances, EveryStepKeepsStates, EveryRunIsSound, EveryRunKeepsStates, EveryRunHasItsGenealogy};

// Every call can be told of, so there are runs of any calls.
pub fn every_call_has_a_reply<S>() -> bool
    ensures { EveryCallHasAReply S }
{
    true
}

// A refused call leaves the filter as it was, and tells nothing but the refusal.
pub fn a_refused_call_changes_nothing<S>() -> bool
    ensures { ARefusedCallChangesNothing S }
{
    true
}

// Any call leaves a sound filter sound, whatever the model.
pub fn every_step_keeps_soundness<S>() -> bool
    ensures { EveryStepKeepsSoundness S }
{
    true
}

// A call changes the number of nodes in use by those that it issued and those that it freed.
pub fn every_step_balances<S>() -> bool
    ensures { EveryStepBalances S }
{
    true
}

// A hold frees nothing: the place that it takes was closed.
pub fn a_hold_frees_nothing<S>() -> bool
    ensures { AHoldFreesNothing S }
{
    true
}

// Under a lawful model, a call brings only states onto paths.
pub fn every_step_keeps_states<S>() -> bool
    ensures { EveryStepKeepsStates S }
{
    true
}

// In a sound filter no path is longer than the nodes in use.
pub fn no_path_is_longer_than_the_nodes_in_use<S>() -> bool
    ensures { NoPathIsLongerThanTheNodesInUse S }
{
    true
}

// Every run from a fresh filter leaves it sound.
pub fn every_run_is_sound<S>() -> bool
    ensures { EveryRunIsSound S }
{
    true
}

// After every run under a lawful model, only states are on paths.
pub fn every_run_keeps_states<S>() -> bool
    ensures { EveryRunKeepsStates S }
{
    true
}

// After every run each state descends, no draw serves two nodes, the nodes in use are those issued less those freed, and every run of neighbours got its share.
pub fn every_run_has_its_genealogy<S>() -> bool
    ensures { EveryRunHasItsGenealogy S }
{
    true
}

// A worked run holds of the definitions that the contracts cite.
pub fn worked_run_holds() -> bool
    ensures { WorkedRun }
{
    true
}

// So do worked examples of every refusal and of their order.
pub fn worked_refusals_hold() -> bool
    ensures { WorkedRefusals }
{
    true
}
