// From today's mesh to a wanted one: rounds of cell marks. Document 02, Req 13. What is missing on a level is what its round marks, since
// the wanted mesh is admissible; cells are numbered level by level, so the rounds are the cells that differ, in the order of their numbers.
#![tactic(auto)]

ghost use Rattle.std.specs.Prelude.{◌≡◌, ◌-◌, length};
ghost use Rattle.facts.specs.Bounded.{some};
ghost use Rattle.rounds.specs.Rounds.{find_rounds};
ghost use Rattle.rounds.specs.Answers.{rounds_answer_of};
ghost use Rattle.rounds.specs.Steps.{left_by_rounds, lost_at, Listable, ListedLevels};

use grid::Plan;
use refusals::Refusal;

// What an accepted call answers: how many marks were written, and how many round lengths.
#[derive(Clone, Copy)]
pub struct Rounds {
    pub marks: u32,
    pub rounds: u32,
}

// The same for C, which has no enum that holds a value: a refusal or 0, and the counts, both 0 with a refusal.
#[repr(C)]
#[derive(Clone, Copy, Default)]
pub struct RoundsAnswer {
    pub number: u32,
    pub marks: u32,
    pub rounds: u32,
}

impl From<Result<Rounds, Refusal>> for RoundsAnswer {
    ghost from_gives = { λ found answer. answer ≡ rounds_answer_of found };

    fn from(found: Result<Rounds, Refusal>) -> RoundsAnswer {
        match found {
            Ok(counts) => RoundsAnswer {
                number: 0,
                marks: counts.marks,
                rounds: counts.rounds,
            },
            Err(refusal) => RoundsAnswer {
                number: u32::from(refusal),
                ..RoundsAnswer::default()
            },
        }
    }
}

// Whether a cell that is refined today is not so in the wanted mesh.
fn is_losing(cells: &[u8], wanted: &[u8]) -> bool
    requires { length cells.now ≡ length wanted.now }
    ensures { result ≡ some (length cells.now) (lost_at cells.now wanted.now) }
{
    let mut lost = false;
    for (i, cell) in cells.iter().enumerate() {
        lost = ((*cell == 2) & (wanted[i] != 2)) | lost;
    }
    lost
}

// The missing cells, level by level, and how many there are on each level but the last. Answers how many they are.
fn list_levels(
    plan: Plan,
    cells: &[u8],
    wanted: &[u8],
    marks: &mut [u32],
    lengths: &mut [u32],
) -> u32
    requires { Listable plan cells.now wanted.now marks.old lengths.old }
    ensures { ListedLevels plan cells.now wanted.now marks.old lengths.old (plan.levels - 1) result marks.new lengths.new }
{
    let mut n: usize = 0;
    for k in 0..plan.levels - 1 {
        let from = plan.cell_offset(k) as usize;
        let to = plan.cell_offset(k + 1) as usize;
        let end = changes::list_changed_between(cells, wanted, marks, n, from, to);
        lengths[k as usize] = (end - n) as u32;
        n = end;
    }
    n as u32
}

// The rounds from a mesh to a wanted one; nothing is written with a refusal.
pub fn find(
    plan: Plan,
    cells: &[u8],
    functions: &[u8],
    wanted_cells: &[u8],
    wanted_functions: &[u8],
    marks: &mut [u32],
    lengths: &mut [u32],
) -> Result<Rounds, Refusal>
    ensures { left_by_rounds (rounds_answer_of result) marks lengths ≡ find_rounds plan cells.now functions.now wanted_cells.now wanted_functions.now marks.old lengths.old }
{
    tables::check(plan, cells, functions)?;
    tables::check(plan, wanted_cells, wanted_functions)?;
    if is_losing(cells, wanted_cells) {
        return Err(Refusal::RefinedCellNotWanted);
    }
    if changes::is_short(cells, wanted_cells, marks.len()) {
        return Err(Refusal::CellListTooShort);
    }
    let rounds = plan.levels - 1;
    if lengths.len() < rounds as usize {
        return Err(Refusal::CellListTooShort);
    }
    let marks = list_levels(plan, cells, wanted_cells, marks, lengths);
    Ok(Rounds { marks, rounds })
}
