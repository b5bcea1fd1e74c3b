// Reads a line from its front.
ghost use Rattle.std.specs.Prelude.{◌≡◌, ℕ, ◌≤◌, pos, neg_ℤ, length, drop, slice_index, cond, is_ok, IfOk, OnOk, IfErr, ◌==◌};
ghost use Rattle.text.specs.Bytes.{in_class, run, past_run};
ghost use Rattle.concept_text.specs.Reading.{number, has_number, past, has_sign, past_sign, unsigned, constant, has_constant};

use crate::fault::{Expected, Stop};
use text::{Class, after, bare, cut, digits_value, first};

// What is left of a line, without blanks at its front.
#[derive(Clone, Copy)]
pub struct Reader<'a> {
    rest: &'a [u8],
}

impl<'a> Reader<'a> {
    pub fn new(line: &'a [u8]) -> Reader<'a>
        ensures { result.rest.now ≡ past_run Class.Blank line.now }
    {
        Reader { rest: bare(line) }
    }

    pub fn is_done(&self) -> bool
        ensures { result ≡ (length self.now.rest.now == 0) }
    {
        self.rest.is_empty()
    }

    // Whether a byte of this class stands at the front.
    pub fn is_at(&self, class: Class) -> bool
        ensures { result ≡ in_class class (slice_index self.now.rest.now 0) }
    {
        class.has(first(self.rest))
    }

    // The reading stops here.
    pub fn stop(&self, expected: Expected) -> Stop
        ensures { result ≡ record { expected = expected; left = length self.now.rest.now } }
    {
        Stop {
            expected,
            left: self.rest.len(),
        }
    }

    // Takes this byte, if it stands at the front, and no blanks after it.
    pub fn takes_byte(&mut self, byte: u8) -> bool
        ensures told { result ≡ has_sign byte self.old.rest.now }
        ensures rest { self.new.rest.now ≡ cond result (drop 1 self.old.rest.now) self.old.rest.now }
    {
        if first(self.rest) != byte {
            return false;
        }
        self.rest = after(self.rest, 1);
        true
    }

    // Takes this byte and the blanks after it, if it stands at the front.
    pub fn takes(&mut self, byte: u8) -> bool
        ensures told { result ≡ has_sign byte self.old.rest.now }
        ensures rest { self.new.rest.now ≡ cond result (past_sign self.old.rest.now) self.old.rest.now }
    {
        if !self.takes_byte(byte) {
            return false;
        }
        self.rest = bare(self.rest);
        true
    }

    // Takes this byte.
    pub fn sign(&mut self, byte: u8) -> Result<(), Stop>
        ensures told { is_ok result ≡ has_sign byte self.old.rest.now }
        ensures rest { self.new.rest.now ≡ cond (is_ok result) (past_sign self.old.rest.now) self.old.rest.now }
        ensures stop { IfErr result (λ e. e ≡ record { expected = Expected.Sign byte; left = length self.old.rest.now }) }
    {
        if self.takes(byte) {
            return Ok(());
        }
        Err(self.stop(Expected::Sign(byte)))
    }

    // Takes the bytes of this class at the front, which may be none, and the blanks after them.
    pub fn take(&mut self, class: Class) -> &'a [u8]
        ensures front { result.now ≡ run class self.old.rest.now }
        ensures rest { self.new.rest.now ≡ past class self.old.rest.now }
    {
        let (front, rest) = cut(class, self.rest);
        self.rest = bare(rest);
        front
    }

    // Takes the number at the front, if it lies between these two.
    pub fn number(&mut self, low: u32, high: u32) -> Result<u32, Stop>
        ensures told { is_ok result ≡ has_number low high self.old.rest.now }
        ensures value { IfOk result (λ n. n ≡ number self.old.rest.now) }
        ensures rest { self.new.rest.now ≡ cond (is_ok result) (past Class.Digit self.old.rest.now) self.old.rest.now }
        ensures stop { IfErr result (λ e. e ≡ record { expected = Expected.Number low high; left = length self.old.rest.now }) }
    {
        let mut ahead = *self;
        let digits = ahead.take(Class::Digit);
        match digits_value(digits) {
            Some(value)
                if !digits.is_empty() && u64::from(low) <= value && value <= u64::from(high) => {
                *self = ahead;
                Ok(value as u32)
            }
            _ => Err(self.stop(Expected::Number(low, high))),
        }
    }

    // Takes the number at the front, with a minus sign or without, if it lies between these two.
    pub fn constant(&mut self, low: i32, high: i32) -> Result<i32, Stop>
        ensures told { is_ok result ≡ has_constant low high self.old.rest.now }
        ensures value { IfOk result (λ n. n ≡ constant self.old.rest.now) }
        ensures rest { self.new.rest.now ≡ cond (is_ok result) (past Class.Digit (unsigned self.old.rest.now)) self.old.rest.now }
        ensures stop { IfErr result (λ e. e ≡ record { expected = Expected.Constant low high; left = length self.old.rest.now }) }
    {
        let stop = self.stop(Expected::Constant(low, high));
        let mut ahead = *self;
        let negative = ahead.takes_byte(b'-');
        let Ok(size) = ahead.number(0, 2_147_483_648) else {
            return Err(stop);
        };
        let value = signed(negative, size);
        if value < i64::from(low) || value > i64::from(high) {
            return Err(stop);
        }
        *self = ahead;
        Ok(value as i32)
    }
}

fn signed(negative: bool, size: u32) -> i64
    ensures { result ≡ cond negative (neg_ℤ (pos size)) (pos size) }
{
    if negative {
        -i64::from(size)
    } else {
        i64::from(size)
    }
}
