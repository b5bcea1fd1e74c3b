// Making a sheet, and its trials.
ghost use Rattle.std.specs.Prelude.{◌≡◌, ℕ, ◌<◌, IfSome, IfOk};
ghost use Rattle.sheet.specs.Views.{dropped, how_many_close, kept, new_view, open_refusal, trial_place, with_trial};
ghost use Rattle.sheet.specs.Showing.{view, Acts};
ghost use Rattle.sheet.specs.Stacks.{height};

use crate::counting::sum_up;
use crate::refusal::Refusal;
use crate::sheet::Sheet;
use crate::stack::Stack;
use crate::trial::{Token, Trial};
use concept::forest::Forest;
use domain::Domain;

pub const MOST_OPEN: usize = 8;

pub const MOST_OPENED: u32 = 65_535;

impl<D: Domain> Sheet<D> {
    // An empty sheet over a domain, which it holds from now on.
    pub fn new(domain: D) -> Sheet<D>
        ensures { (view result ≡ new_view) × (result.domain ≡ domain) }
    {
        Sheet {
            domain,
            objects: 0,
            kinds: [0; 128],
            forest: Forest::new(),
            statements: Stack::new(),
            trials: Stack::new(),
            opened: 0,
        }
    }
}

impl<D> Sheet<D> {
    // Opens a trial inside those that are open; its token has the next number.
    pub fn open_trial(&mut self) -> Result<Token, Refusal>
        ensures acts { Acts self.old self.new (open_refusal (view self.old)) (with_trial (view self.old)) result }
        ensures number { IfOk result (λ t. t.number ≡ self.new.opened) }
    {
        if self.trials.is_full() || self.opened >= MOST_OPENED {
            return Err(Refusal::Trials);
        }
        let number = self.opened + 1;
        self.trials.push(Trial {
            number,
            mark: self.statements.len(),
        });
        self.opened = number;
        Ok(Token { number })
    }

    // The place of the trial of this number among the open ones.
    fn place_of(&self, number: u32) -> Option<usize>
        ensures first { result ≡ trial_place (view self.now) number }
        ensures within { IfSome result (λ i. i < height self.now.trials) }
    {
        self.trials
            .as_slice()
            .iter()
            .position(|trial| trial.number == number)
    }

    // Closes the trial and all opened after it, and says how many closed. What was stated inside remains.
    pub fn keep_trial(&mut self, token: Token) -> usize
        ensures closed { result ≡ how_many_close (view self.old) token.number }
        ensures left { view self.new ≡ kept (view self.old) token.number }
        ensures lasting { self.new.domain ≡ self.old.domain }
    {
        let Token { number } = token;
        match self.place_of(number) {
            None => 0,
            Some(place) => {
                let closed = self.trials.len() - place;
                self.trials.truncate(place);
                closed
            }
        }
    }

    // Closes the trial and all opened after it, and says how many closed. What was stated inside is gone.
    pub fn drop_trial(&mut self, token: Token) -> usize
        ensures closed { result ≡ how_many_close (view self.old) token.number }
        ensures left { view self.new ≡ dropped (view self.old) token.number }
        ensures lasting { self.new.domain ≡ self.old.domain }
    {
        let Token { number } = token;
        let Some(place) = self.place_of(number) else {
            return 0;
        };
        let closed = self.trials.len() - place;
        let mark = self.trials.as_slice()[place].mark;
        self.trials.truncate(place);
        self.statements.truncate(mark);
        let filled = sum_up(self.statements.as_slice()).nodes as usize;
        self.forest = self.forest.cut(filled);
        closed
    }
}
