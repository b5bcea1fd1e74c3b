// A pair of domains, which is again a domain: the left side has the even kinds, the right side the odd ones.
#![tactic(auto)]

ghost use Rattle.std.specs.Prelude.{◌≡◌, length};
ghost use Rattle.domain.specs.Meaning.{Meaning};
ghost use Rattle.domain.specs.Solving.{Accepted};
ghost use Rattle.pair.specs.Paired.{paired};
ghost use Rattle.pair.specs.Rule.{Rule, Examples};
ghost use Rattle.pair.specs.Split.{Settles, BothAnswer};
ghost use Rattle.pair.specs.Laws.{pair_lawful};

mod sides;
mod split;

use domain::lists::{Words, check_lists};
use domain::{Domain, Outcome, Predicate, Refusal, Row, Sample};
use sides::{Side, moved_down, moved_up};
use split::{Share, Values};

// Kind 2k is kind k of the left side, and kind 2k + 1 is kind k of the right side.
#[derive(Drop)]
pub struct Pair<L, R> {
    left: L,
    right: R,
}

impl<L, R> Pair<L, R> {
    pub fn new(left: L, right: R) -> Pair<L, R>
        ensures left { result.left ≡ left }
        ensures right { result.right ≡ right }
    {
        Pair { left, right }
    }
}

impl<L: Domain, R: Domain> Domain for Pair<L, R> {
    ghost meaning = { λ d. paired (L.Domain.meaning d.left) (R.Domain.meaning d.right) };

    ghost lawful = { λ d. pair_lawful _ _ (L.Domain.lawful d.left) (R.Domain.lawful d.right) };

    fn arity(&self, predicate: Predicate) -> u32 {
        match Side::of(predicate.kind) {
            Side::Left => self.left.arity(moved_down(predicate)),
            Side::Right => self.right.arity(moved_down(predicate)),
        }
    }

    fn sample(&self, kind: u32) -> Option<Sample> {
        match Side::of(kind) {
            Side::Left => self.left.sample(kind / 2),
            Side::Right => self.right.sample(kind / 2),
        }
    }

    fn test(&self, predicate: Predicate, x: i32, y: i32) -> bool {
        match Side::of(predicate.kind) {
            Side::Left => self.left.test(moved_down(predicate), x, y),
            Side::Right => self.right.test(moved_down(predicate), x, y),
        }
    }

    fn complement(&self, predicate: Predicate) -> Result<Predicate, Refusal> {
        let found = match Side::of(predicate.kind) {
            Side::Left => self.left.complement(moved_down(predicate)),
            Side::Right => self.right.complement(moved_down(predicate)),
        };
        moved_up(predicate, found)
    }

    fn solve(
        &mut self,
        kinds: &[u32],
        rows: &[Row],
        values: &mut [i32],
    ) -> Result<Outcome, Refusal> {
        check_lists(self, kinds, rows, values.len())?;
        Ok(self.solve_checked(kinds, rows, values))
    }
}

impl<L: Domain, R: Domain> Words for Pair<L, R> {
    ghost spoken = { λ d. paired (L.Domain.meaning d.left) (R.Domain.meaning d.right) };

    fn has_kind(&self, kind: u32) -> bool {
        self.sample(kind).is_some()
    }

    fn places(&self, predicate: Predicate) -> u32 {
        self.arity(predicate)
    }
}

// How a pair numbers its kinds: proved of every two domains, and nothing to run.
pub fn follows_its_rule()
    ensures rule { (l r : Meaning) → Rule l r }
    ensures examples { (l r s : Meaning) → Examples l r s }
{}

impl<L: Domain, R: Domain> Pair<L, R> {
    // Solves each side's share. A side writes into a table of its own, so that nothing is written into `values` before
    // both are solved.
    fn solve_checked(&mut self, kinds: &[u32], rows: &[Row], values: &mut [i32]) -> Outcome
        requires { Accepted (paired (L.Domain.meaning self.old.left) (R.Domain.meaning self.old.right)) kinds.now rows.now (length values.old) }
        ensures settles { Settles (paired (L.Domain.meaning self.old.left) (R.Domain.meaning self.old.right)) kinds.now rows.now values.old values.new result }
        ensures left { L.Domain.meaning self.new.left ≡ L.Domain.meaning self.old.left }
        ensures right { R.Domain.meaning self.new.right ≡ R.Domain.meaning self.old.right }
    {
        let left = Share::of(Side::Left, kinds, rows);
        let right = Share::of(Side::Right, kinds, rows);
        match self.ask_both(&left, &right) {
            None => Outcome::Unsolvable,
            Some(found) => {
                left.put_back(kinds, &found.0, values);
                right.put_back(kinds, &found.1, values);
                Outcome::Solved
            }
        }
    }

    // Asks the left side, and the right one once the left one is solved.
    fn ask_both(&mut self, left: &Share, right: &Share) -> Option<(Values, Values)>
        requires left { Accepted (L.Domain.meaning self.old.left) left.now.kinds.items left.now.rows.items 512 }
        requires right { Accepted (R.Domain.meaning self.old.right) right.now.kinds.items right.now.rows.items 512 }
        ensures answers { BothAnswer (L.Domain.meaning self.old.left) left.now (R.Domain.meaning self.old.right) right.now result }
        ensures left { L.Domain.meaning self.new.left ≡ L.Domain.meaning self.old.left }
        ensures right { R.Domain.meaning self.new.right ≡ R.Domain.meaning self.old.right }
    {
        let on_left = left.ask(&mut self.left)?;
        let on_right = right.ask(&mut self.right)?;
        Some((on_left, on_right))
    }
}
