// Statements about the ancestry tree.
ghost use Rattle.cloud.specs.Exactness.{TreesAreExact};
ghost use Rattle.cloud.specs.Serials.{SerialsCountNodes};
ghost use Rattle.cloud.specs.Promises.{EveryRunHasItsAncestry};

// A node is in use exactly when it is on a path of something that names it.
pub fn trees_are_exact() -> bool
    ensures { TreesAreExact }
{
    true
}

// There are as many different serials as nodes in use.
pub fn serials_count_nodes() -> bool
    ensures { SerialsCountNodes }
{
    true
}

// Every run that has led to a cloud has the ancestry theorem.
pub fn every_run_has_its_ancestry<S>() -> bool
    ensures { EveryRunHasItsAncestry S }
{
    true
}
