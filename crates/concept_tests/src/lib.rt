// Tests of the table check and of the counts, over Tenths. Expected values are worked out by hand.
#![tactic(auto)]

#[cfg(test)]
mod nodes;
#[cfg(test)]
mod tests;
