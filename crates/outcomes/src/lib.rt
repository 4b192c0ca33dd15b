// What refining and coarsening make of their input. The definitions are in specs/, the theorems about them in proofs/; the calls are in crate
// calls.
#![tactic(auto)]

ghost use Rattle.std.specs.Prelude.{◌≡◌};
ghost use Rattle.outcomes.specs.Answers.{answer_of};

use refusals::Refusal;

// What an accepted call answers: how many entries of each list were written.
#[derive(Clone, Copy)]
pub struct Changes {
    pub cells: u32,
    pub functions: u32,
}

// The same for C, which has no enum that holds a value: a refusal or 0, and the lengths, both 0 with a refusal.
#[repr(C)]
#[derive(Clone, Copy, Default)]
pub struct Answer {
    pub number: u32,
    pub cells: u32,
    pub functions: u32,
}

impl From<Result<Changes, Refusal>> for Answer {
    ghost from_gives = { λ changed answer. answer ≡ answer_of changed };

    fn from(changed: Result<Changes, Refusal>) -> Answer {
        match changed {
            Ok(changes) => Answer {
                number: 0,
                cells: changes.cells,
                functions: changes.functions,
            },
            Err(refusal) => Answer {
                number: u32::from(refusal),
                ..Answer::default()
            },
        }
    }
}
