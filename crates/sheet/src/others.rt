// Statements that are no concepts: links and objects set apart.
ghost use Rattle.std.specs.Prelude.{◌≡◌, ℕ, ◌+◌, ◌*◌, ◌<◌, ◌≤◌, true, ◌&&◌, []};
ghost use Rattle.sheet.specs.Layout.{shown};
ghost use Rattle.sheet.specs.Statements.{v_of, k_of, x_of, others_of, comparisons_of};
ghost use Rattle.sheet.specs.Statements.Statement.{links, apart};
ghost use Rattle.sheet.specs.Views.{apart_refusal, is_object, link_refusal, with_statement};
ghost use Rattle.sheet.specs.Showing.{view, Acts};

use crate::refusal::Refusal;
use crate::sheet::Sheet;
use crate::statement::Stored;
use concept::features::is_relation;

// This many statements may be no concepts.
pub const MOST_OTHERS: u32 = 64;

impl<D> Sheet<D> {
    // Whether both are objects of this sheet.
    pub(crate) fn are_objects(&self, a: u32, b: u32) -> bool
        ensures { result ≡ (is_object (view self.now) a && is_object (view self.now) b) }
    {
        self.is_object(a) && self.is_object(b)
    }

    // Adds a statement that is no concept.
    pub(crate) fn push_other(&mut self, statement: Stored)
        requires other { others_of (shown [] statement) ≡ 1 }
        requires ready { 0 < self.old.objects }
        requires room { x_of (view self.old).statements < 64 }
        requires values { k_of (view self.old).statements + comparisons_of (shown [] statement) + self.old.objects * v_of (view self.old).statements ≤ 256 }
        ensures added { view self.new ≡ with_statement (view self.old) (shown [] statement) }
        ensures lasting { self.new.domain ≡ self.old.domain }
    {
        self.statements.push(statement);
    }

    // States that two objects stand for different things.
    pub fn set_apart(&mut self, a: u32, b: u32) -> Result<(), Refusal>
        ensures { Acts self.old self.new (apart_refusal (view self.old) a b) (with_statement (view self.old) (apart a b)) result }
    {
        if !self.are_objects(a, b) {
            return Err(Refusal::Object);
        }
        if self.totals().others >= MOST_OTHERS {
            return Err(Refusal::Others);
        }
        self.push_other(Stored::Apart(a, b));
        Ok(())
    }

    // States that the relation, a link feature or a role, leads from one object to another.
    pub fn link(&mut self, from: u32, relation: u32, to: u32) -> Result<(), Refusal>
        ensures { Acts self.old self.new (link_refusal (view self.old) from relation to) (with_statement (view self.old) (links from relation to)) result }
    {
        if !self.are_objects(from, to) {
            return Err(Refusal::Object);
        }
        if !is_relation(relation) {
            return Err(Refusal::Relation);
        }
        if self.totals().others >= MOST_OTHERS {
            return Err(Refusal::Others);
        }
        self.push_other(Stored::Link(from, relation, to));
        Ok(())
    }
}
