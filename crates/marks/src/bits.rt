// Sets of marks as numbers: bit x of the number says whether the mark x is in the set. They stay plain numbers, since
// `&`, `|` and `count_ones` of std are what most code asks of them; a struct would wrap each of these once more.
ghost use Rattle.std.specs.Prelude.{◌≡◌, ℕ, ◌<◌, not, ◌&&◌, ◌==◌};

// One of the sixteen marks.
#[derive(Clone, Copy)]
pub struct Mark {
    pub number: u32,
    ghost known: { number < 16 },
}

ghost use Rattle.marks.specs.Marks.{has};

// Whether the set has the mark.
pub fn has_bit(set: u16, mark: Mark) -> bool
    ensures { result ≡ has set mark.number }
{
    (set >> mark.number) % 2 == 1
}

// The set of the mark alone.
pub fn only(mark: Mark) -> u16
    ensures { (y : ℕ) → has result y ≡ (y == mark.number) }
{
    1 << mark.number
}

// The marks that are not in the set.
pub fn complement(set: u16) -> u16
    ensures { (y : ℕ) → y < 16 → has result y ≡ not (has set y) }
{
    !set
}

// The set without the mark.
pub fn without(set: u16, mark: Mark) -> u16
    ensures { (y : ℕ) → y < 16 → has result y ≡ (has set y && not (y == mark.number)) }
{
    set & complement(only(mark))
}
