// Why a call is refused, and the number of each refusal in the table of document 01 and in what the later requests add to it. C gets these
// numbers; within the library a call that may be refused is a `Result`.
#![tactic(auto)]

ghost use Rattle.std.specs.Prelude.{◌≡◌};
ghost use Rattle.refusals.specs.Numbers.{number, number_of};

// In the order of the numbers, from 1 on.
#[derive(Clone, Copy, PartialEq, Eq, Debug)]
pub enum Refusal {
    PlanOutOfRange = 1,
    TooManyCells = 2,
    TableLength = 3,
    NotAMesh = 4,
    NotAdmissible = 5,
    WrongFunctionByte = 6,
    MarkOutOfRange = 7,
    MarkOfWrongKind = 8,
    MarkOfLastLevel = 9,
    CellListTooShort = 10,
    FunctionListTooShort = 11,
    MalformedFile = 12,
    TrailingBytes = 13,
    PlanWithoutHeights = 14,
    PointOrHeightOutOfRange = 15,
    TooManyCellsToProject = 16,
    CarriedHeightOutOfRange = 17,
    DraftOpen = 18,
    NoDraft = 19,
    RefinedCellNotWanted = 20,
}

impl From<Refusal> for u32 {
    ghost from_gives = { λ r n. n ≡ number r };

    fn from(refusal: Refusal) -> u32 {
        refusal as u32
    }
}

// What C gets of a call that answers nothing else: 0, or the number of its refusal.
pub fn number_of(answer: Result<(), Refusal>) -> u32
    ensures { result ≡ number_of answer }
{
    match answer {
        Ok(()) => 0,
        Err(refusal) => u32::from(refusal),
    }
}
