// Histories.
#![tactic(auto)]

ghost use Rattle.history.specs.Steps.{Stepwise};

pub mod call;
mod perform;
pub mod play;
pub mod run;
mod tokens;

pub fn histories_go_step_by_step()
    ensures { Stepwise }
{}
