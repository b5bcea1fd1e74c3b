// A run of calls on one sheet.
use crate::call::Answer;
use sheet::sheet::Sheet;
use sheet::trial::Token;

// The sheet after all calls, the tokens at hand, and an answer for each call.
pub struct Run<D> {
    pub sheet: Sheet<D>,
    pub tokens: Vec<Option<Token>>,
    pub answers: Vec<Answer>,
}

// There was not enough memory to record a run. Nothing was called.
pub struct Unplayed<D> {
    pub domain: D,
    pub tokens: Vec<Option<Token>>,
}
