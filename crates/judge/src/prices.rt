// The answer: as callers have it, and as this crate does, which knows from the type that a sheet was accepted.
ghost use Rattle.std.specs.Prelude.{◌≡◌};
ghost use Rattle.judge.specs.Chain.{answer_with};
ghost use Rattle.judge.specs.Judgement.{answer_in};

use questions::Question;

// The answer to an input: 0 and the prices over q of w winners, or the number of the first question that is answered no, and zeros.
#[derive(Clone, Copy)]
#[repr(C)]
pub struct Prices {
    pub number: u32,
    pub w: u32,
    pub q: u32,
    pub prices: [u64; 6],
}

// What a sheet that passes all questions is answered with: the prices over q of w winners.
#[derive(Clone, Copy, Default)]
pub(crate) struct Accepted {
    pub(crate) w: u32,
    pub(crate) q: u32,
    pub(crate) prices: [u64; 6],
}

impl From<Result<Accepted, Question>> for Prices {
    ghost from_gives = { λ answer prices. answer_in prices ≡ answer_with answer };

    #[tactic(auto, unfolding(demands::specs::Answer::refusal))]
    fn from(answer: Result<Accepted, Question>) -> Prices {
        let number = questions::number_in(&answer);
        let Accepted { w, q, prices } = answer.unwrap_or_default();
        Prices {
            number,
            w,
            q,
            prices,
        }
    }
}
