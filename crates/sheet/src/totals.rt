// What is counted of statements.

// The totals of statements: N normal nodes, V those of them that ask for a feature or a value, K comparisons, X statements that
// are no concepts, and R, the most role nodes on one path.
#[derive(Clone, Copy, PartialEq, Eq, Debug, Default)]
pub struct Totals {
    pub nodes: u32,
    pub valued: u32,
    pub comparisons: u32,
    pub others: u32,
    pub depth: u32,
}
