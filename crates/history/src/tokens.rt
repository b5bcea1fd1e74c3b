// Tokens at hand.
ghost use Rattle.std.specs.Prelude.{◌≡◌, ℕ, Some, None, slice_index_or, slice_set};
ghost use Rattle.std.specs.Option.{option_map};
ghost use Rattle.history.specs.Tokens.{numbers, number_in};

use sheet::trial::Token;

// Takes the token at this place away, if one is there.
pub fn take_token(tokens: &mut [Option<Token>], place: usize) -> Option<Token>
    ensures taken { number_in result ≡ slice_index_or (numbers tokens.old) place None }
    ensures left { numbers tokens.new ≡ slice_set (numbers tokens.old) place None }
{
    // by index: the proof does not close over `get_mut`, where it lacks what the lent place leaves in the list
    if place >= tokens.len() {
        return None;
    }
    tokens[place].take()
}
