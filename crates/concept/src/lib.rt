// Concepts: what a rule says of a thing. Tables of nodes are checked (`check`), counted (`count`) and written as normal forms
// into a forest (`grow`); what all this means is in specs/.
#![tactic(auto)]

ghost use Rattle.concept.specs.Agreement.{Agreement};
ghost use Rattle.concept.specs.Tables.{concept_of, table_fault};
ghost use Rattle.concept.specs.Terms.{forms};
ghost use Rattle.concept.specs.Forests.{roots};

mod chain;
pub mod check;
pub mod checked;
pub mod count;
pub mod fault;
pub mod features;
pub mod fit;
pub mod forest;
mod grow;
pub mod node;
pub mod normal;
pub mod term;
mod translate;
mod whole;
mod write;

// The theorem on normal forms.
pub fn normal_forms_agree()
    ensures { Agreement }
{}
