// The questions that are put to an input and to what is asked with a book, and their numbers. An answer of any layer that may be a refusal
// is `Ok`, or the first question that is answered no. The definitions speak of numbers alone, which are those of FORMAT, "Questions": 0 is
// `Ok`'s (specs/Numbers.antt).
#![tactic(auto)]

ghost use Rattle.std.specs.Prelude.{◌≡◌};
ghost use Rattle.questions.specs.Numbers.{number_of, number_in};

// The questions, in their order.
#[derive(Clone, Copy, Debug, PartialEq, Eq)]
pub enum Question {
    Version,
    Counts,
    Tables,
    Bids,
    Reserves,
    Form,
    Ranges,
    Combination,
    Value,
    WithinReserve,
    WithinSets,
    Cover,
    Totals,
    Stationary,
    Slack,
    Clients,
}

impl From<Question> for u32 {
    ghost from_gives = { λ question number. number ≡ number_of question };

    fn from(question: Question) -> u32 {
        match question {
            Question::Version => 1,
            Question::Counts => 2,
            Question::Tables => 3,
            Question::Bids => 4,
            Question::Reserves => 5,
            Question::Form => 6,
            Question::Ranges => 7,
            Question::Combination => 8,
            Question::Value => 9,
            Question::WithinReserve => 10,
            Question::WithinSets => 11,
            Question::Cover => 12,
            Question::Totals => 13,
            Question::Stationary => 14,
            Question::Slack => 15,
            Question::Clients => 16,
        }
    }
}

// The number of an answer that may be a refusal: 0 where it is none.
pub fn number_in<T>(answer: &Result<T, Question>) -> u32
    ensures { result ≡ number_in answer.now }
{
    match answer {
        Ok(_) => 0,
        Err(question) => (*question).into(),
    }
}
