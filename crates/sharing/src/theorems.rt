// The theorems. Each is the contract of a function, so that the crate is not proved without it.
ghost use Rattle.sharing.specs.Examples.{BoundsAttained, WorkedFigures};
ghost use Rattle.sharing.specs.Statements.{EveryClockedRunShares, EveryGeneralRunKeepsOrder};

// Every run of a self-clocked line shares fairly, and keeps the order of each session.
#[tactic(auto, using(crate::proofs::Fairness::clocked_runs_share))]
pub fn clocked_runs_share()
    ensures { EveryClockedRunShares }
{}

// Every run of a line keeps the order of each session, whatever its discipline.
#[tactic(auto, using(crate::proofs::Orders::general_runs_keep_order))]
pub fn general_runs_keep_order()
    ensures { EveryGeneralRunKeepsOrder }
{}

// Neither bound on the shares can be made smaller: a run reaches both.
#[tactic(auto, using(crate::proofs::Examples::bounds_attained))]
pub fn bounds_are_attained()
    ensures { BoundsAttained }
{}

// Figures worked out from the rules.
#[tactic(auto, using(crate::proofs::Examples::worked_figures))]
pub fn worked_figures()
    ensures { WorkedFigures }
{}
