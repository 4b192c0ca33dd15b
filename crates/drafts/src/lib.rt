// A draft kept open: cell marks collected over many calls and closed as one refinement by cells. Document 02, Req 10. The definitions are in
// specs/, the theorems about them in proofs/; the calls are in crate drafting.
#![tactic(auto)]

ghost use Rattle.std.specs.Prelude.{◌≡◌};
ghost use Rattle.drafts.specs.Answers.{answered, closed_as, read_as};

use files::{ReadAnswer, ReadRefusal};
use grid::Plan;
use outcomes::{Answer, Changes};
use refusals::Refusal;

// Whether a draft is open (any number but 0), and how many marks it has in the list that is lent with it. The form is that of C, which has
// no enum that holds a value. By default none is open.
#[repr(C)]
#[derive(Clone, Copy, Default)]
pub struct Draft {
    pub open: u32,
    pub marks: usize,
}

// What the calls on a draft answer, for C: a refusal or 0, and the draft.
#[repr(C)]
#[derive(Clone, Copy)]
pub struct DraftAnswer {
    pub number: u32,
    pub draft: Draft,
}

impl DraftAnswer {
    // Of a call that makes of one draft another: a refusal leaves it as it was before.
    pub fn new(before: Draft, after: Result<Draft, Refusal>) -> DraftAnswer
        ensures { result ≡ answered before after }
    {
        match after {
            Ok(draft) => DraftAnswer { number: 0, draft },
            Err(refusal) => DraftAnswer {
                number: u32::from(refusal),
                draft: before,
            },
        }
    }
}

// What closing answers, for C: as a refinement does, and the draft.
#[repr(C)]
#[derive(Clone, Copy)]
pub struct CloseAnswer {
    pub answer: Answer,
    pub draft: Draft,
}

impl CloseAnswer {
    // Closing ends the draft, unless it is refused.
    pub fn new(before: Draft, closed: Result<Changes, Refusal>) -> CloseAnswer
        ensures { result ≡ closed_as before closed }
    {
        let draft = if closed.is_ok() {
            Draft::default()
        } else {
            before
        };
        CloseAnswer {
            answer: Answer::from(closed),
            draft,
        }
    }
}

// What reading with a draft answers, for C: as reading does, and the draft.
#[repr(C)]
#[derive(Clone, Copy)]
pub struct ReadWithDraftAnswer {
    pub answer: ReadAnswer,
    pub draft: Draft,
}

impl ReadWithDraftAnswer {
    // Reading ends the draft, unless it is refused.
    pub fn new(before: Draft, read: Result<Plan, ReadRefusal>) -> ReadWithDraftAnswer
        ensures { result ≡ read_as before read }
    {
        let draft = if read.is_ok() {
            Draft::default()
        } else {
            before
        };
        ReadWithDraftAnswer {
            answer: ReadAnswer::from(read),
            draft,
        }
    }
}
