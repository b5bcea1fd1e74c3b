// Runs of bytes of one class at the front of a text.
ghost use Rattle.std.specs.Prelude.{◌≡◌, drop, length, slice_index};
ghost use Rattle.text.specs.Bytes.{in_class, past_run, run};

// A class of bytes: the blanks within a line, letters, what a name goes on with, digits, what stands before a comment, and all that
// does not end a line.
#[derive(Clone, Copy, Debug, PartialEq, Eq)]
pub enum Class {
    Blank,
    Letter,
    Word,
    Digit,
    Said,
    Inline,
}

impl Class {
    pub fn has(self, b: u8) -> bool
        ensures { result ≡ in_class self b }
    {
        match self {
            Class::Blank => b == b' ' || b == b'\t' || b == b'\r',
            Class::Letter => b.is_ascii_alphabetic(),
            Class::Word => b.is_ascii_alphanumeric() || b == b'_',
            Class::Digit => b.is_ascii_digit(),
            Class::Said => b != b'#' && b != b'\n',
            Class::Inline => b != b'\n',
        }
    }
}

// The bytes of this class at the front, and the rest.
pub fn cut(class: Class, s: &[u8]) -> (&[u8], &[u8])
    ensures front { result.0.now ≡ run class s.now }
    ensures rest { result.1.now ≡ past_run class s.now }
{
    s.split_at(run_length(class, s))
}

fn run_length(class: Class, s: &[u8]) -> usize
    ensures { result ≡ length (run class s.now) }
{
    s.iter().take_while(|b| class.has(**b)).count()
}

// The rest after the blanks at the front.
pub fn bare(s: &[u8]) -> &[u8]
    ensures { result.now ≡ past_run Class.Blank s.now }
{
    let (_, rest) = cut(Class::Blank, s);
    rest
}

// The byte at the front, 0 past the end.
pub fn first(s: &[u8]) -> u8
    ensures { result ≡ slice_index s.now 0 }
{
    s.first().copied().unwrap_or(0)
}

// The text without its first `n` bytes.
pub fn after(s: &[u8], n: usize) -> &[u8]
    ensures { result.now ≡ drop n s.now }
{
    s.get(n..).unwrap_or(&[])
}
