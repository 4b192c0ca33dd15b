// The calls on a draft, and the other calls with one. A draft is a value that goes in, and a call that changes it answers the new one; its
// marks stand in a list that is lent with it. What C gets of these answers is made of them in crates drafts
// and outcomes.
#![tactic(auto)]

ghost use Rattle.std.specs.Prelude.{◌≡◌, ◌+◌, ◌≤◌, length};
ghost use Rattle.facts.specs.Numbers.{first};
ghost use Rattle.facts.specs.Writing.{written_at};
ghost use Rattle.refusals.specs.Numbers.{number_of};
ghost use Rattle.mesh.specs.Mesh.{check, open_mesh};
ghost use Rattle.outcomes.specs.Calls.{refine, mark_refusal};
ghost use Rattle.outcomes.specs.Calls as calls;
ghost use Rattle.outcomes.specs.Answers.{answer_of};
ghost use Rattle.calls.specs.Parts.{direction_of, by_of};
ghost use Rattle.files.specs.File.{read_mesh};
ghost use Rattle.files.specs.Steps.{left_by_read};
ghost use Rattle.drafts.specs.declared.Draft.{Draft};
ghost use Rattle.drafts.specs.Drafts.{is_open, refusal18, refusal19, open_draft, drop_draft, add_marks, close_draft, outcome_with_draft, outcome_with_heights_and_draft, draft_after_open, draft_after_read};
ghost use Rattle.drafts.specs.Answers.{draft_after, answered, closed_as};
ghost use Rattle.drafts.specs.Meets.{left_by_add, left_by_close, MeetsWithDraft, MeetsWithHeightsAndDraft};

use calls::{By, Call, Direction};
use drafts::{Draft, ReadWithDraftAnswer};
use grid::Plan;
use outcomes::Changes;
use refusals::Refusal;

// A draft with more marks than its list has entries is not open.
// A draft and its list are two parameters, since C hands them over so and their lengths do not follow from one another.
fn is_open(draft: Draft, list: &[u32]) -> bool
    ensures { result ≡ is_open draft list.now }
{
    draft.open != 0 && draft.marks <= list.len()
}

// Refusals 1 to 6, then 18 where a draft is open.
// Two functions, this one and refusal19, as the definitions are two.
fn refusal18(
    plan: Plan,
    cells: &[u8],
    functions: &[u8],
    draft: Draft,
    list: &[u32],
) -> Result<(), Refusal>
    ensures { number_of result ≡ refusal18 plan cells.now functions.now draft list.now }
{
    tables::check(plan, cells, functions)?;
    if is_open(draft, list) {
        return Err(Refusal::DraftOpen);
    }
    Ok(())
}

// Refusals 1 to 6, then 19 where none is open.
fn refusal19(
    plan: Plan,
    cells: &[u8],
    functions: &[u8],
    draft: Draft,
    list: &[u32],
) -> Result<(), Refusal>
    ensures { number_of result ≡ refusal19 plan cells.now functions.now draft list.now }
{
    tables::check(plan, cells, functions)?;
    if !is_open(draft, list) {
        return Err(Refusal::NoDraft);
    }
    Ok(())
}

// Opens a draft without marks.
pub fn open(
    plan: Plan,
    cells: &[u8],
    functions: &[u8],
    draft: Draft,
    list: &[u32],
) -> Result<Draft, Refusal>
    ensures { answered draft result ≡ open_draft plan cells.now functions.now draft list.now }
{
    refusal18(plan, cells, functions, draft, list)?;
    Ok(Draft { open: 1, marks: 0 })
}

// Drops a draft; no table changes.
pub fn drop(
    plan: Plan,
    cells: &[u8],
    functions: &[u8],
    draft: Draft,
    list: &[u32],
) -> Result<Draft, Refusal>
    ensures { answered draft result ≡ drop_draft plan cells.now functions.now draft list.now }
{
    refusal19(plan, cells, functions, draft, list)?;
    Ok(Draft::default())
}

// Refusals 7 to 9 of marks that are to be refined: the marks are judged as refine by cells judges them.
fn judge(plan: Plan, cells: &[u8], functions: &[u8], marks: &[u32]) -> Result<(), Refusal>
    requires { check plan cells.now functions.now ≡ 0 }
    ensures { number_of result ≡ first (mark_refusal refine calls.cells plan cells.now functions.now) marks.now }
{
    let deep = plan.cell_offset(plan.levels - 1);
    marks::judge(cells, deep, marks)
}

// Marks written to the list, from entry `at` on.
fn append(list: &mut [u32], at: usize, marks: &[u32])
    requires { at + length marks.now ≤ length list.old }
    ensures { list.new ≡ written_at list.old at marks.now }
{
    // a loop, as changes::copy_bytes
    for (i, mark) in marks.iter().enumerate() {
        list[at + i] = *mark;
    }
}

// Adds marks to a draft: all of them, or none.
pub fn add(
    plan: Plan,
    cells: &[u8],
    functions: &[u8],
    draft: Draft,
    list: &mut [u32],
    marks: &[u32],
) -> Result<Draft, Refusal>
    ensures { left_by_add (answered draft result) list ≡ add_marks plan cells.now functions.now draft list.old marks.now }
{
    refusal19(plan, cells, functions, draft, list)?;
    judge(plan, cells, functions, marks)?;
    let from = draft.marks;
    if list.len() - from < marks.len() {
        return Err(Refusal::CellListTooShort);
    }
    append(list, from, marks);
    Ok(Draft {
        marks: from + marks.len(),
        ..draft
    })
}

// Closes a draft: one refinement by cells with its marks.
pub fn close(
    plan: Plan,
    cells: &mut [u8],
    functions: &mut [u8],
    draft: Draft,
    list: &[u32],
    cell_list: &mut [u32],
    function_list: &mut [u32],
) -> Result<Changes, Refusal>
    ensures { left_by_close (closed_as draft result) cells functions cell_list function_list ≡ close_draft plan cells.old functions.old draft list.now cell_list.old function_list.old }
{
    refusal19(plan, cells, functions, draft, list)?;
    calls::change(
        Ok(()),
        Call(Direction::Refine, By::Cells),
        plan,
        cells,
        functions,
        &list[..draft.marks],
        cell_list,
        function_list,
    )
}

// A split or a join with a draft: 18 where it is open.
pub fn change(
    call: Call,
    plan: Plan,
    cells: &mut [u8],
    functions: &mut [u8],
    draft: Draft,
    list: &[u32],
    marks: &[u32],
    cell_list: &mut [u32],
    function_list: &mut [u32],
) -> Result<Changes, Refusal>
    ensures { MeetsWithDraft (outcome_with_draft (direction_of call.0) (by_of call.1) plan) draft list.now (answer_of result) cells functions marks cell_list function_list }
{
    refusal18(plan, cells, functions, draft, list)?;
    calls::change(
        Ok(()),
        call,
        plan,
        cells,
        functions,
        marks,
        cell_list,
        function_list,
    )
}

// Refine with heights and a draft: 18 is decided before the heights are tried.
pub fn refine(
    by: By,
    plan: Plan,
    cells: &mut [u8],
    functions: &mut [u8],
    heights: &mut [i32],
    draft: Draft,
    list: &[u32],
    marks: &[u32],
    cell_list: &mut [u32],
    function_list: &mut [u32],
) -> Result<Changes, Refusal>
    ensures { MeetsWithHeightsAndDraft (outcome_with_heights_and_draft (by_of by) plan) draft list.now (answer_of result) cells functions heights marks cell_list function_list }
{
    refusal18(plan, cells, functions, draft, list)?;
    let checked = heights::refusal(plan, functions, heights);
    refining::refine(
        by,
        checked,
        plan,
        cells,
        functions,
        heights,
        marks,
        cell_list,
        function_list,
    )
}

// Opens a mesh; accepted, this drops the draft, whichever there was.
pub fn open_mesh(plan: Plan, cells: &mut [u8], functions: &mut [u8]) -> Result<Draft, Refusal>
    ensures number { number_of result ≡ (open_mesh plan cells.old functions.old).number }
    ensures cells { cells.new ≡ (open_mesh plan cells.old functions.old).cells }
    ensures functions { functions.new ≡ (open_mesh plan cells.old functions.old).functions }
    ensures draft { (draft : Draft) → draft_after draft result ≡ draft_after_open plan cells.old functions.old draft }
{
    tables::open(plan, cells, functions)?;
    Ok(Draft::default())
}

// Reads a mesh; accepted, this drops the draft.
// C's struct is made here, since reading itself knows of no draft.
pub fn read_mesh(
    file: &[u8],
    cells: &mut [u8],
    functions: &mut [u8],
    draft: Draft,
) -> ReadWithDraftAnswer
    ensures outcome { left_by_read result.answer cells functions ≡ read_mesh file.now cells.old functions.old }
    ensures draft { result.draft ≡ draft_after_read file.now cells.old functions.old draft }
{
    ReadWithDraftAnswer::new(draft, files::read(file, cells, functions))
}
