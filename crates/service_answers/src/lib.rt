// The number that C gets for what a service answers: a handle, or the code of a refusal.
#![tactic(auto)]

ghost use Rattle.std.specs.Prelude.{◌≡◌};
ghost use Rattle.facts.specs.Codes.{packed};
ghost use Rattle.facts.specs.Checks.{code_in};
ghost use Rattle.service_answers.specs.Answers.{handle_of};

use facts::{Code, Handle};

// code + 65536 * handle.
pub fn pack(answer: Result<Handle, Code>) -> u32
    ensures { result ≡ packed (code_in answer) (handle_of answer) }
{
    match answer {
        Ok(h) => 65536 * u32::from(h.0),
        Err(code) => u32::from(code),
    }
}
