// A list of limits: its readings by name and kind, and a row for each limit.
use domain::Row;

// The readings in order of first mention, each with its kind at the same place, and the rows over those places. The kinds stand
// apart from the names, since a domain solves a slice of kinds.
#[derive(Drop)]
pub struct LimitList<'a> {
    pub names: Vec<&'a [u8]>,
    pub kinds: Vec<u32>,
    pub rows: Vec<Row>,
}
