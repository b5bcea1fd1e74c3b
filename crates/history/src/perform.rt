// Performs the calls of a run, one at a time.
ghost use Rattle.std.specs.Prelude.{◌≡◌, ℕ, ◌+◌, ◌<◌, None, slice_index_or, slice_set, vec_len, vec_capacity};
ghost use Rattle.history.specs.Tokens.{numbers};
ghost use Rattle.history.specs.Runs.{AtMostOneMore, ClosedBy, HasRoom, Performed, Recorded};
ghost use Rattle.history.specs.declared.call.Call.TheVariants.{Open};

use crate::call::{Answer, Call};
use crate::run::Run;
use crate::tokens::take_token;
use domain::Domain;
use sheet::sheet::Sheet;
use sheet::trial::Token;

impl<D: Domain> Run<D> {
    // Performs one call, and records what it answered.
    pub(crate) fn perform(&mut self, call: Call<'_>)
        requires { HasRoom 1 self.old }
        ensures done { Recorded (D.meaning self.old.sheet.domain) self.old call.entry self.new }
        ensures room { (n : ℕ) → HasRoom (n + 1) self.old → HasRoom n self.new }
    {
        let answer = self.answer(call);
        let _ = self.answers.push(answer);
    }

    // What a call answers that is made now.
    fn answer(&mut self, call: Call<'_>) -> Answer
        requires { vec_len self.old.tokens < vec_capacity self.old.tokens }
        ensures done { Performed (D.meaning self.old.sheet.domain) self.old.sheet (numbers self.old.tokens.items) call.entry self.new.sheet (numbers self.new.tokens.items) result }
        ensures room { AtMostOneMore self.old.tokens self.new.tokens }
        ensures recorded { self.new.answers ≡ self.old.answers }
    {
        match call {
            Call::Open => self.open(),
            Call::SetUp(objects, kinds) => Answer::from(self.sheet.set_up(objects, kinds)),
            Call::State(object, table) => Answer::from(self.sheet.state(object, table)),
            Call::Link(from, relation, to) => Answer::from(self.sheet.link(from, relation, to)),
            Call::Apart(a, b) => Answer::from(self.sheet.set_apart(a, b)),
            Call::Compare(form, constant, left, right) => {
                Answer::from(self.sheet.compare(form, constant, left, right))
            }
            Call::Keep(place) => self.spend(place, Sheet::keep_trial),
            Call::Drop(place) => self.spend(place, Sheet::drop_trial),
        }
    }

    // Opens a trial; its token comes last among those at hand.
    fn open(&mut self) -> Answer
        requires { vec_len self.old.tokens < vec_capacity self.old.tokens }
        ensures done { Performed (D.meaning self.old.sheet.domain) self.old.sheet (numbers self.old.tokens.items) Open self.new.sheet (numbers self.new.tokens.items) result }
        ensures room { AtMostOneMore self.old.tokens self.new.tokens }
        ensures recorded { self.new.answers ≡ self.old.answers }
    {
        match self.sheet.open_trial() {
            Err(refusal) => Answer::Refused(refusal),
            Ok(token) => {
                let number = token.number();
                match self.tokens.push(Some(token)) {
                    Ok(()) => Answer::Opened(number),
                    Err(_) => unreachable(),
                }
            }
        }
    }

    // Spends the token at this place, if one is there, by closing its trial.
    fn spend<F: FnOnce(&mut Sheet<D>, Token) -> usize>(&mut self, place: usize, close: F) -> Answer
        requires { F.IsAlwaysCallable close }
        ensures spent { numbers self.new.tokens.items ≡ slice_set (numbers self.old.tokens.items) place None }
        ensures closed { ClosedBy F.FnOnce close self.old.sheet (slice_index_or (numbers self.old.tokens.items) place None) self.new.sheet result }
        ensures room { AtMostOneMore self.old.tokens self.new.tokens }
        ensures recorded { self.new.answers ≡ self.old.answers }
    {
        match take_token(self.tokens.as_mut_slice(), place) {
            None => Answer::NoToken,
            Some(token) => Answer::Closed(token.number(), close(&mut self.sheet, token)),
        }
    }
}
