//! What commands ask for.
ghost use Rattle.std.specs.Prelude.{◌≡◌};
ghost use Rattle.job_input.specs.Meaning.{to_end, to_go_on};
ghost use Rattle.job_answers.specs.Meaning.{asks_session};

use cov_base::Name;
use job_answers::{Asked, Wanted};
use job_input::Form;
use job_text::Grammar;

/// A job of this grammar, and nothing behind it.
pub fn to_end(grammar: Grammar) -> Form
    ensures { result ≡ to_end grammar }
{
    Form {
        grammar,
        more: false,
    }
}

/// A job of this grammar, behind which more may stand.
pub fn to_go_on(grammar: Grammar) -> Form
    ensures { result ≡ to_go_on grammar }
{
    Form {
        grammar,
        more: true,
    }
}

/// The session of the name, which may have to be whole.
pub fn asks_session(name: Name, whole: bool) -> Asked
    ensures { result ≡ asks_session name whole }
{
    Asked::WithSession(Wanted { name, whole })
}
