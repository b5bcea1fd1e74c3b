// Runs a whole list of calls on a new sheet.
ghost use Rattle.std.specs.Prelude.{◌≡◌, ℕ, MatchResult};
ghost use Rattle.history.specs.Tokens.{numbers};
ghost use Rattle.history.specs.Runs.{Sound};

use crate::call::Call;
use crate::run::{Run, Unplayed};
use domain::Domain;
use sheet::sheet::Sheet;
use sheet::trial::Token;
use std::alloc::Global;

// Makes a sheet over the domain, performs every call in order, refused ones among them, and records the answers. The tokens
// that are brought along may come from other sheets. What is handed back unplayed is what was handed in.
pub fn play<D: Domain>(
    heap: Global,
    domain: D,
    mut tokens: Vec<Option<Token>>,
    calls: &[Call<'_>],
) -> Result<Run<D>, Unplayed<D>>
    ensures { MatchResult result (Sound (D.meaning domain) (numbers tokens.items) calls.now) (λ u. (u.domain ≡ domain) × (u.tokens.items ≡ tokens.items)) }
{
    let Ok(answers) = Vec::with_capacity(heap, calls.len()) else {
        return Err(Unplayed { domain, tokens });
    };
    if tokens.reserve(calls.len()).is_err() {
        return Err(Unplayed { domain, tokens });
    }
    let mut run = Run {
        sheet: Sheet::new(domain),
        tokens,
        answers,
    };
    for call in calls {
        run.perform(*call);
    }
    Ok(run)
}
