// Faults and answers in words.
use crate::answering::Unanswered;
use crate::fault::Expected;
use crate::limit::Operator;
use crate::list::LimitList;
use domain::Refusal;
use std::error::Error;
use std::fmt;

impl fmt::Display for Expected {
    ghost use Rattle.std.specs.Prelude.{Some};
    ghost use Rattle.limit_list.specs.Words.{expected_text};

    ghost output = { λ e. Some (expected_text e) };

    fn fmt<W: fmt::Write>(&self, f: &mut fmt::Formatter<W>) -> fmt::Result {
        match self {
            Expected::Name => f.write_str("the name of a reading"),
            Expected::MinusOrOperator => f.write_str("-, <=, <, >= or >"),
            Expected::Operator => f.write_str("<=, <, >= or >"),
            Expected::Number(Operator::AtMost | Operator::Above) => {
                f.write_str("a whole number from -65536 to 65536")
            }
            Expected::Number(Operator::Below | Operator::AtLeast) => {
                f.write_str("a whole number from -65535 to 65537")
            }
            Expected::EndOfLine => f.write_str("the end of the line"),
        }
    }
}

// A value in whole tenths, shown in degrees.
#[derive(Clone, Copy)]
struct Degrees(i32);

impl fmt::Display for Degrees {
    fn fmt<W: fmt::Write>(&self, f: &mut fmt::Formatter<W>) -> fmt::Result {
        let sign = if self.0 < 0 { "-" } else { "" };
        let whole = self.0.unsigned_abs() / 10;
        let tenth = self.0.unsigned_abs() % 10;
        write!(f, "{sign}{whole}.{tenth} °C")
    }
}

// The name of a reading, with a replacement character for what is not UTF-8. It is written chunk by chunk, since a Display has no
// allocator to build the whole name in.
fn write_name<W: fmt::Write>(name: &[u8], f: &mut fmt::Formatter<W>) -> fmt::Result {
    for chunk in name.utf8_chunks() {
        f.write_str(chunk.valid())?;
        if !chunk.invalid().is_empty() {
            f.write_str("\u{fffd}")?;
        }
    }
    Ok(())
}

// An answer in words: a line for each reading of the list, with its value in tenths and in degrees, or one line that says that
// there are no values.
#[derive(Clone, Copy)]
pub struct Answered<'a, 't> {
    pub list: &'a LimitList<'t>,
    pub values: &'a Option<Vec<i32>>,
}

impl fmt::Display for Answered<'_, '_> {
    ghost use Rattle.limit_list.specs.Words.{answered_text};

    ghost output = { λ a. answered_text a.values.now };

    fn fmt<W: fmt::Write>(&self, f: &mut fmt::Formatter<W>) -> fmt::Result {
        let Some(values) = self.values else {
            return writeln!(f, "no whole tenths satisfy all limits");
        };
        for (name, value) in self.list.names.iter().zip(values.iter()) {
            write_name(name, f)?;
            let degrees = Degrees(*value);
            writeln!(f, "  {value}  ({degrees})")?;
        }
        Ok(())
    }
}

// The text of a refusal ends with a line feed, since the program has always printed it so.
impl fmt::Display for Unanswered {
    ghost use Rattle.std.specs.Prelude.{Some};
    ghost use Rattle.limit_list.specs.Words.{unanswered_text};

    ghost output = { λ u. Some (unanswered_text u) };

    fn fmt<W: fmt::Write>(&self, f: &mut fmt::Formatter<W>) -> fmt::Result {
        match self {
            Unanswered::Memory => f.write_str("memory allocation failed"),
            Unanswered::Refused(refusal) => {
                let number = refusal.number();
                match refusal {
                    Refusal::TooMany => writeln!(f, "refused ({number}): more than 256 limits"),
                    _ => writeln!(f, "refused ({number})"),
                }
            }
        }
    }
}

impl Error for Unanswered {}
