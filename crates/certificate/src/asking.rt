// A question put by its test, so that who puts several passes on the first that is answered no.
ghost use Rattle.std.specs.Prelude.{◌≡◌, cond};
ghost use Rattle.questions.specs.Numbers.{number_of, number_in};

use questions::Question;

// `Ok` where the question's test holds, else the question.
pub(crate) fn ask(holds: bool, question: Question) -> Result<(), Question>
    ensures { number_in result ≡ cond holds 0 (number_of question) }
{
    if holds { Ok(()) } else { Err(question) }
}
