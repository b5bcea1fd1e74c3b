// Forms that stand in pairs, as those of Tenths and of Marks do.
ghost use Rattle.std.specs.Prelude.{◌≡◌};
ghost use Rattle.domain.specs.Forms.{turned};

// The other form of a pair: the form of the complement. 1 stands with 2, and 3 with 4.
pub fn turned_form(form: u32) -> u32
    ensures { result ≡ turned form }
{
    match form {
        1 => 2,
        2 => 1,
        3 => 4,
        _ => 3,
    }
}
