// Answers as numbers.
#![tactic(auto)]

ghost use Rattle.std.specs.Prelude.{◌≡◌, ◌<◌, ◌^◌};
ghost use Rattle.model.specs.Answers.{signed, counted};

use model::Answer;

// An answer as C gets it.
pub fn signed(answer: Answer) -> i64
    requires { counted answer < 2 ^ 63 }
    ensures { result ≡ signed answer }
{
    match answer {
        Ok(n) => n as i64,
        Err(fault) => -(u64::from(fault) as i64),
    }
}
