// The worked examples of the specification, as a theorem.
ghost use Rattle.tenths.specs.Examples.{Examples};

// The examples stand: the contract is all of it.
pub fn examples_stand() -> u8
    ensures { Examples }
{
    0
}
