// Rows once the lists handed to `solve` are accepted.
ghost use Rattle.std.specs.Prelude.{◌≤◌, length};
ghost use Rattle.marks.specs.Rows.{Ready};

use domain::Row;

// No more rows than `solve` takes, each with its constant a set of marks and its variables listed.
#[derive(Clone, Copy)]
pub struct ReadyRows<'a> {
    pub list: &'a [Row],
    ghost ready: { Ready list.now },
    ghost few: { length list.now ≤ 256 },
}
