// The node that a line says.
ghost use Rattle.std.specs.Prelude.{◌≡◌, cond, IfOk, OnOk, Some, None};
ghost use Rattle.text.specs.Bytes.{run};
ghost use Rattle.concept_text.specs.Reading.{number, past, past_sign};
ghost use Rattle.concept_text.specs.Nodes.{step, past_step, chain, past_chain, is_paired, past_second_chain, comparison, past_comparison, with_holds, node_of, Says};
ghost use Rattle.concept_text.specs.Words.{form_of};

use crate::fault::{Expected, Stop};
use crate::form::Form;
use crate::reader::Reader;
use concept::node::{Chain, Node};
use text::Class;

const NO_CHAIN: Chain = Chain {
    first: 0,
    second: 0,
    third: 0,
};

const BLANK: Node = Node {
    form: 0,
    name: 0,
    left: 0,
    right: 0,
    relation: 0,
    u: NO_CHAIN,
    v: NO_CHAIN,
    predicate: 0,
    constant: 0,
};

impl<'a> Reader<'a> {
    // Any number of 32 bits.
    fn any(&mut self) -> Result<u32, Stop>
        ensures value { IfOk result (λ x. x ≡ number self.old.rest.now) }
        ensures rest { OnOk result (self.new.rest.now ≡ past Class.Digit self.old.rest.now) }
    {
        self.number(0, u32::MAX)
    }

    // The number at the front; 0 where none is written.
    fn step(&mut self) -> Result<u32, Stop>
        ensures value { IfOk result (λ x. x ≡ step self.old.rest.now) }
        ensures rest { OnOk result (self.new.rest.now ≡ past_step self.old.rest.now) }
    {
        if self.is_at(Class::Digit) {
            self.any()
        } else {
            Ok(0)
        }
    }

    fn chain(&mut self) -> Result<Chain, Stop>
        ensures value { IfOk result (λ x. x ≡ chain self.old.rest.now) }
        ensures rest { OnOk result (self.new.rest.now ≡ past_chain self.old.rest.now) }
    {
        Ok(Chain {
            first: self.step()?,
            second: self.step()?,
            third: self.step()?,
        })
    }

    // The chain after a bar.
    fn barred_chain(&mut self) -> Result<Chain, Stop>
        ensures value { IfOk result (λ x. x ≡ chain (past_sign self.old.rest.now)) }
        ensures rest { OnOk result (self.new.rest.now ≡ past_chain (past_sign self.old.rest.now)) }
    {
        self.sign(b'|')?;
        self.chain()
    }

    // A second chain after a bar, if there is a bar.
    fn second_chain(&mut self) -> Result<Option<Chain>, Stop>
        ensures value { IfOk result (λ x. x ≡ cond (is_paired self.old.rest.now) (Some (chain (past_sign self.old.rest.now))) None) }
        ensures rest { OnOk result (self.new.rest.now ≡ past_second_chain self.old.rest.now) }
    {
        if self.takes(b'|') {
            Ok(Some(self.chain()?))
        } else {
            Ok(None)
        }
    }

    // The form of a comparison: `<=` or `>`, or the word `form` with the number of a form. `<=` and `>` are the forms 1 and 2 of
    // one value, and 3 and 4 of the difference of two.
    fn comparison(&mut self, paired: bool) -> Result<u32, Stop>
        ensures value { IfOk result (λ x. x ≡ comparison paired self.old.rest.now) }
        ensures rest { OnOk result (self.new.rest.now ≡ past_comparison self.old.rest.now) }
    {
        let base = if paired { 2 } else { 0 };
        if self.takes(b'>') {
            return Ok(base + 2);
        }
        if self.takes_byte(b'<') {
            self.sign(b'=')?;
            return Ok(base + 1);
        }
        let stop = self.stop(Expected::Comparison);
        match self.take(Class::Letter) {
            b"form" => self.any(),
            _ => Err(stop),
        }
    }

    fn holds(&mut self, blank: Node) -> Result<Node, Stop>
        ensures { IfOk result (λ x. x ≡ with_holds blank self.old.rest.now) }
    {
        let u = self.chain()?;
        let v = self.second_chain()?;
        Ok(Node {
            u,
            v: v.unwrap_or(NO_CHAIN),
            predicate: self.comparison(v.is_some())?,
            constant: self.constant(i32::MIN, i32::MAX)?,
            ..blank
        })
    }

    // The form of a node, by its word.
    fn form(&mut self) -> Result<Form, Stop>
        ensures value { IfOk result (λ x. form_of (run Class.Letter self.old.rest.now) ≡ Some x) }
        ensures rest { self.new.rest.now ≡ past Class.Letter self.old.rest.now }
    {
        let stop = self.stop(Expected::Form);
        Form::of(self.take(Class::Letter)).ok_or(stop)
    }

    // The node of this form, from the fields that the form uses.
    fn fields(&mut self, form: Form) -> Result<Node, Stop>
        ensures { IfOk result (λ x. x ≡ node_of form self.old.rest.now) }
    {
        let blank = Node {
            form: form as u32,
            ..BLANK
        };
        match form {
            Form::Name => Ok(Node {
                name: self.any()?,
                ..blank
            }),
            Form::Not => Ok(Node {
                left: self.any()?,
                ..blank
            }),
            Form::And | Form::Or => Ok(Node {
                left: self.any()?,
                right: self.any()?,
                ..blank
            }),
            Form::Some | Form::All => Ok(Node {
                relation: self.any()?,
                left: self.any()?,
                ..blank
            }),
            Form::Has | Form::Lacks => Ok(Node {
                relation: self.any()?,
                ..blank
            }),
            Form::Holds => self.holds(blank),
            Form::Meets | Form::Parts => Ok(Node {
                u: self.chain()?,
                v: self.barred_chain()?,
                ..blank
            }),
        }
    }

    // What follows the place of a node: the word of its form, and the fields that the form uses.
    pub fn node(&mut self) -> Result<Node, Stop>
        ensures { IfOk result (Says self.old.rest.now) }
    {
        let form = self.form()?;
        self.fields(form)
    }
}
