// Tests of pairs of domains, over Tenths and Marks.
#![tactic(auto)]

#[cfg(test)]
mod tests;
