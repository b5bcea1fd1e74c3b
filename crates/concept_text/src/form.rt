// The forms of nodes, and the words for them.
ghost use Rattle.std.specs.Prelude.{◌≡◌};
ghost use Rattle.concept_text.specs.Words.{form_of};

// Each form stands at its number.
#[derive(Clone, Copy)]
pub enum Form {
    Name = 1,
    Not = 2,
    And = 3,
    Or = 4,
    Some = 5,
    All = 6,
    Has = 7,
    Lacks = 8,
    Holds = 9,
    Meets = 10,
    Parts = 11,
}

impl Form {
    // The form that this word stands for.
    pub fn of(word: &[u8]) -> Option<Form>
        ensures { result ≡ form_of word.now }
    {
        match word {
            b"name" => Some(Form::Name),
            b"not" => Some(Form::Not),
            b"and" => Some(Form::And),
            b"or" => Some(Form::Or),
            b"some" => Some(Form::Some),
            b"all" => Some(Form::All),
            b"has" => Some(Form::Has),
            b"lacks" => Some(Form::Lacks),
            b"holds" => Some(Form::Holds),
            b"meets" => Some(Form::Meets),
            b"parts" => Some(Form::Parts),
            _ => None,
        }
    }
}
