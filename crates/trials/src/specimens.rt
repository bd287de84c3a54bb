// The worked examples, proved: the contract names the table of them.
ghost use Rattle.trials.specs.Examples.{Examples};
ghost use Rattle.trials.specs.Specimens.{Specimens};

fn specimens_stand() -> bool
    ensures { Specimens }
{
    true
}

// Runs of a book exist, and the sums that the whole-book statement speaks of are not all zero in them.
fn runs_exist() -> bool
    ensures { Examples }
{
    true
}
