// Completion: what a completed cluster stands for.
#![tactic(auto)]

ghost use Rattle.tableau.specs.Completion.{Assembly, Payment};
ghost use Rattle.tableau.specs.Example.{Example};

// A completed cluster whose debts are paid has a plant in which every claim is true.
pub fn completed_clusters_have_plants()
    ensures { Assembly }
{}

// All that is claimed of one of its things is possible, so that it pays for a debt of another cluster.
pub fn completed_clusters_pay_debts()
    ensures { Payment }
{}

// The premises can be met: a worked example.
pub fn premises_can_be_met()
    ensures { Example }
{}
