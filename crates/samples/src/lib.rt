// Worked examples: one small plant over Tenths, and which of its things lie in which concepts.
#![tactic(auto)]

ghost use Rattle.samples.specs.SamplePlant.{SampleTable};

// The sample table, as one theorem over the definitions.
pub fn sample_table_stands()
    ensures { SampleTable }
{}
