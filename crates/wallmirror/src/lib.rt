// The library's interface: the calls, exported with C's calling convention. include/wallmirror.h declares them.
#![tactic(auto)]

ghost use Rattle.std.specs.Prelude.{◌≡◌};
ghost use Rattle.grid.specs.Plan.{plan_refusal};
ghost use Rattle.layout.specs.Layout.{cells_length, functions_length, level_at, place_of, cell_at, support};
ghost use Rattle.mesh.specs.Mesh.{open_mesh, check, count};
ghost use Rattle.outcomes.specs.Calls.{outcome, refine_cells, refine_functions, coarsen_cells, coarsen_functions};
ghost use Rattle.calls.specs.Parts.{direction_of, by_of};
ghost use Rattle.outcomes.specs.Meets.{Meets};
ghost use Rattle.files.specs.File.{read_mesh, write_mesh};
ghost use Rattle.files.specs.Steps.{left_by_read, left_by_write};
ghost use Rattle.heights.specs.Heights.{answer, flattened};
ghost use Rattle.refining.specs.Refining.{outcome_with_heights, refine_cells_with_heights, refine_functions_with_heights};
ghost use Rattle.refining.specs.Steps.{MeetsWithHeights};
ghost use Rattle.planes.specs.Planes.{planes_length, open_planes, check_planes, count_planes, on_planes, packed, unpacked};
ghost use Rattle.planes.specs.Meets.{left_by_open, MeetsOnPlanes, left_by_pack, left_by_unpack};
ghost use Rattle.projector.specs.Projector.{project};
ghost use Rattle.projector.specs.Steps.{left_by_corners};
ghost use Rattle.outcomes.specs.Calls as calls;
ghost use Rattle.outcomes.specs.Calls.{refine, coarsen};
ghost use Rattle.drafts.specs.Drafts.{open_draft, drop_draft, add_marks, close_draft, outcome_with_draft, outcome_with_heights_and_draft, draft_after_open, draft_after_read};
ghost use Rattle.drafts.specs.Meets.{left_by_add, left_by_close, MeetsWithDraft, MeetsWithHeightsAndDraft};
ghost use Rattle.rounds.specs.Rounds.{find_rounds};
ghost use Rattle.rounds.specs.Steps.{left_by_rounds};

use calls::{By, Call, Direction};
use drafts::{CloseAnswer, Draft, DraftAnswer, ReadWithDraftAnswer};
use files::{ReadAnswer, WriteAnswer};
use grid::{Place, Plan};
use heights::HeightAnswer;
use layout::{CellAt, CellPlace, Level, Support};
use mesh::Count;
use outcomes::Answer;
use projector::CornersAnswer;
use rounds::RoundsAnswer;

// 0.12.0, as major * 1,000,000 + minor * 1,000 + patch.
#[unsafe(no_mangle)]
pub extern "C" fn wallmirror_version() -> u32
    ensures { result ≡ 12000 }
{
    12000
}

#[unsafe(no_mangle)]
pub extern "C" fn wallmirror_plan_refusal(plan: Plan) -> u32
    ensures { result ≡ plan_refusal plan }
{
    refusals::number_of(plan.refusal())
}

#[unsafe(no_mangle)]
pub extern "C" fn wallmirror_cells_len(plan: Plan) -> usize
    ensures { result ≡ cells_length plan }
{
    layout::cells_len(plan)
}

#[unsafe(no_mangle)]
pub extern "C" fn wallmirror_functions_len(plan: Plan) -> usize
    ensures { result ≡ functions_length plan }
{
    layout::functions_len(plan)
}

#[unsafe(no_mangle)]
pub extern "C" fn wallmirror_level(plan: Plan, level: u32) -> Level
    ensures { result ≡ level_at plan level }
{
    layout::level_at(plan, level)
}

#[unsafe(no_mangle)]
pub extern "C" fn wallmirror_place(plan: Plan, cell: u32) -> CellPlace
    ensures { result ≡ place_of plan cell }
{
    layout::place_of(plan, cell)
}

#[unsafe(no_mangle)]
pub extern "C" fn wallmirror_cell_at(plan: Plan, level: u32, row: u32, column: u32) -> CellAt
    ensures { result ≡ cell_at plan (record { level = level; row = row; column = column }) }
{
    layout::cell_at(plan, Place { level, row, column })
}

#[unsafe(no_mangle)]
pub extern "C" fn wallmirror_support(plan: Plan, function: u32) -> Support
    ensures { result ≡ support plan function }
{
    layout::support_of(plan, function)
}

#[unsafe(no_mangle)]
pub extern "C" fn wallmirror_open(plan: Plan, cells: &mut [u8], functions: &mut [u8]) -> u32
    ensures number { result ≡ (open_mesh plan cells.old functions.old).number }
    ensures cells { cells.new ≡ (open_mesh plan cells.old functions.old).cells }
    ensures functions { functions.new ≡ (open_mesh plan cells.old functions.old).functions }
{
    refusals::number_of(tables::open(plan, cells, functions))
}

#[unsafe(no_mangle)]
pub extern "C" fn wallmirror_check(plan: Plan, cells: &[u8], functions: &[u8]) -> u32
    ensures { result ≡ check plan cells.now functions.now }
{
    refusals::number_of(tables::check(plan, cells, functions))
}

#[unsafe(no_mangle)]
pub extern "C" fn wallmirror_count(plan: Plan, cells: &[u8], functions: &[u8]) -> Count
    ensures { result ≡ count plan cells.now functions.now }
{
    tables::count(plan, cells, functions).into()
}

// One of the four calls. It checks the tables itself and hands on what check answered, so that the rooms of the check and those of the change
// are not on the stack at the same time.
fn change(
    call: Call,
    plan: Plan,
    cells: &mut [u8],
    functions: &mut [u8],
    marks: &[u32],
    cell_list: &mut [u32],
    function_list: &mut [u32],
) -> Answer
    ensures { Meets (outcome (direction_of call.0) (by_of call.1) plan) result cells functions marks cell_list function_list }
{
    let checked = tables::check(plan, cells, functions);
    calls::change(
        checked,
        call,
        plan,
        cells,
        functions,
        marks,
        cell_list,
        function_list,
    )
    .into()
}

#[unsafe(no_mangle)]
pub extern "C" fn wallmirror_refine_cells(
    plan: Plan,
    cells: &mut [u8],
    functions: &mut [u8],
    marks: &[u32],
    cell_list: &mut [u32],
    function_list: &mut [u32],
) -> Answer
    ensures { Meets (refine_cells plan) result cells functions marks cell_list function_list }
{
    change(
        Call(Direction::Refine, By::Cells),
        plan,
        cells,
        functions,
        marks,
        cell_list,
        function_list,
    )
}

#[unsafe(no_mangle)]
pub extern "C" fn wallmirror_refine_functions(
    plan: Plan,
    cells: &mut [u8],
    functions: &mut [u8],
    marks: &[u32],
    cell_list: &mut [u32],
    function_list: &mut [u32],
) -> Answer
    ensures { Meets (refine_functions plan) result cells functions marks cell_list function_list }
{
    change(
        Call(Direction::Refine, By::Functions),
        plan,
        cells,
        functions,
        marks,
        cell_list,
        function_list,
    )
}

#[unsafe(no_mangle)]
pub extern "C" fn wallmirror_coarsen_cells(
    plan: Plan,
    cells: &mut [u8],
    functions: &mut [u8],
    marks: &[u32],
    cell_list: &mut [u32],
    function_list: &mut [u32],
) -> Answer
    ensures { Meets (coarsen_cells plan) result cells functions marks cell_list function_list }
{
    change(
        Call(Direction::Coarsen, By::Cells),
        plan,
        cells,
        functions,
        marks,
        cell_list,
        function_list,
    )
}

#[unsafe(no_mangle)]
pub extern "C" fn wallmirror_coarsen_functions(
    plan: Plan,
    cells: &mut [u8],
    functions: &mut [u8],
    marks: &[u32],
    cell_list: &mut [u32],
    function_list: &mut [u32],
) -> Answer
    ensures { Meets (coarsen_functions plan) result cells functions marks cell_list function_list }
{
    change(
        Call(Direction::Coarsen, By::Functions),
        plan,
        cells,
        functions,
        marks,
        cell_list,
        function_list,
    )
}

#[unsafe(no_mangle)]
pub extern "C" fn wallmirror_read(file: &[u8], cells: &mut [u8], functions: &mut [u8]) -> ReadAnswer
    ensures { left_by_read result cells functions ≡ read_mesh file.now cells.old functions.old }
{
    files::read(file, cells, functions).into()
}

#[unsafe(no_mangle)]
pub extern "C" fn wallmirror_write(
    plan: Plan,
    cells: &[u8],
    functions: &[u8],
    file: &mut [u8],
) -> WriteAnswer
    ensures { left_by_write result file ≡ write_mesh plan cells.now functions.now file.old }
{
    files::write(plan, cells, functions, file).into()
}

#[unsafe(no_mangle)]
pub extern "C" fn wallmirror_height(
    plan: Plan,
    cells: &[u8],
    functions: &[u8],
    heights: &[i32],
    across: u32,
    up: u32,
) -> HeightAnswer
    ensures { result ≡ flattened (answer plan cells.now functions.now heights.now across up) }
{
    heights::answer(plan, cells, functions, heights, across, up).into()
}

#[unsafe(no_mangle)]
pub extern "C" fn wallmirror_corners(
    plan: Plan,
    cells: &[u8],
    functions: &[u8],
    heights: &[i32],
    out: &mut [u64],
) -> CornersAnswer
    ensures { left_by_corners result out ≡ project plan cells.now functions.now heights.now out.old }
{
    projector::corners(plan, cells, functions, heights, out).into()
}

// The same of refining with heights.
fn refine_with_heights(
    by: By,
    plan: Plan,
    cells: &mut [u8],
    functions: &mut [u8],
    heights: &mut [i32],
    marks: &[u32],
    cell_list: &mut [u32],
    function_list: &mut [u32],
) -> Answer
    ensures { MeetsWithHeights (outcome_with_heights (by_of by) plan) result cells functions heights marks cell_list function_list }
{
    let checked = refining::tables_refusal(plan, cells, functions, heights);
    refining::refine(
        by,
        checked,
        plan,
        cells,
        functions,
        heights,
        marks,
        cell_list,
        function_list,
    )
    .into()
}

#[unsafe(no_mangle)]
pub extern "C" fn wallmirror_refine_cells_with_heights(
    plan: Plan,
    cells: &mut [u8],
    functions: &mut [u8],
    heights: &mut [i32],
    marks: &[u32],
    cell_list: &mut [u32],
    function_list: &mut [u32],
) -> Answer
    ensures { MeetsWithHeights (refine_cells_with_heights plan) result cells functions heights marks cell_list function_list }
{
    refine_with_heights(
        By::Cells,
        plan,
        cells,
        functions,
        heights,
        marks,
        cell_list,
        function_list,
    )
}

#[unsafe(no_mangle)]
pub extern "C" fn wallmirror_refine_functions_with_heights(
    plan: Plan,
    cells: &mut [u8],
    functions: &mut [u8],
    heights: &mut [i32],
    marks: &[u32],
    cell_list: &mut [u32],
    function_list: &mut [u32],
) -> Answer
    ensures { MeetsWithHeights (refine_functions_with_heights plan) result cells functions heights marks cell_list function_list }
{
    refine_with_heights(
        By::Functions,
        plan,
        cells,
        functions,
        heights,
        marks,
        cell_list,
        function_list,
    )
}

#[unsafe(no_mangle)]
pub extern "C" fn wallmirror_draft_open(
    plan: Plan,
    cells: &[u8],
    functions: &[u8],
    draft: Draft,
    list: &[u32],
) -> DraftAnswer
    ensures { result ≡ open_draft plan cells.now functions.now draft list.now }
{
    DraftAnswer::new(draft, drafting::open(plan, cells, functions, draft, list))
}

#[unsafe(no_mangle)]
pub extern "C" fn wallmirror_draft_add(
    plan: Plan,
    cells: &[u8],
    functions: &[u8],
    draft: Draft,
    list: &mut [u32],
    marks: &[u32],
) -> DraftAnswer
    ensures { left_by_add result list ≡ add_marks plan cells.now functions.now draft list.old marks.now }
{
    DraftAnswer::new(
        draft,
        drafting::add(plan, cells, functions, draft, list, marks),
    )
}

#[unsafe(no_mangle)]
pub extern "C" fn wallmirror_draft_close(
    plan: Plan,
    cells: &mut [u8],
    functions: &mut [u8],
    draft: Draft,
    list: &[u32],
    cell_list: &mut [u32],
    function_list: &mut [u32],
) -> CloseAnswer
    ensures { left_by_close result cells functions cell_list function_list ≡ close_draft plan cells.old functions.old draft list.now cell_list.old function_list.old }
{
    CloseAnswer::new(
        draft,
        drafting::close(
            plan,
            cells,
            functions,
            draft,
            list,
            cell_list,
            function_list,
        ),
    )
}

#[unsafe(no_mangle)]
pub extern "C" fn wallmirror_draft_drop(
    plan: Plan,
    cells: &[u8],
    functions: &[u8],
    draft: Draft,
    list: &[u32],
) -> DraftAnswer
    ensures { result ≡ drop_draft plan cells.now functions.now draft list.now }
{
    DraftAnswer::new(draft, drafting::drop(plan, cells, functions, draft, list))
}

#[unsafe(no_mangle)]
pub extern "C" fn wallmirror_refine_cells_with_draft(
    plan: Plan,
    cells: &mut [u8],
    functions: &mut [u8],
    draft: Draft,
    list: &[u32],
    marks: &[u32],
    cell_list: &mut [u32],
    function_list: &mut [u32],
) -> Answer
    ensures { MeetsWithDraft (outcome_with_draft refine calls.cells plan) draft list.now result cells functions marks cell_list function_list }
{
    drafting::change(
        Call(Direction::Refine, By::Cells),
        plan,
        cells,
        functions,
        draft,
        list,
        marks,
        cell_list,
        function_list,
    )
    .into()
}

#[unsafe(no_mangle)]
pub extern "C" fn wallmirror_refine_functions_with_draft(
    plan: Plan,
    cells: &mut [u8],
    functions: &mut [u8],
    draft: Draft,
    list: &[u32],
    marks: &[u32],
    cell_list: &mut [u32],
    function_list: &mut [u32],
) -> Answer
    ensures { MeetsWithDraft (outcome_with_draft refine calls.functions plan) draft list.now result cells functions marks cell_list function_list }
{
    drafting::change(
        Call(Direction::Refine, By::Functions),
        plan,
        cells,
        functions,
        draft,
        list,
        marks,
        cell_list,
        function_list,
    )
    .into()
}

#[unsafe(no_mangle)]
pub extern "C" fn wallmirror_coarsen_cells_with_draft(
    plan: Plan,
    cells: &mut [u8],
    functions: &mut [u8],
    draft: Draft,
    list: &[u32],
    marks: &[u32],
    cell_list: &mut [u32],
    function_list: &mut [u32],
) -> Answer
    ensures { MeetsWithDraft (outcome_with_draft coarsen calls.cells plan) draft list.now result cells functions marks cell_list function_list }
{
    drafting::change(
        Call(Direction::Coarsen, By::Cells),
        plan,
        cells,
        functions,
        draft,
        list,
        marks,
        cell_list,
        function_list,
    )
    .into()
}

#[unsafe(no_mangle)]
pub extern "C" fn wallmirror_coarsen_functions_with_draft(
    plan: Plan,
    cells: &mut [u8],
    functions: &mut [u8],
    draft: Draft,
    list: &[u32],
    marks: &[u32],
    cell_list: &mut [u32],
    function_list: &mut [u32],
) -> Answer
    ensures { MeetsWithDraft (outcome_with_draft coarsen calls.functions plan) draft list.now result cells functions marks cell_list function_list }
{
    drafting::change(
        Call(Direction::Coarsen, By::Functions),
        plan,
        cells,
        functions,
        draft,
        list,
        marks,
        cell_list,
        function_list,
    )
    .into()
}

#[unsafe(no_mangle)]
pub extern "C" fn wallmirror_refine_cells_with_heights_and_draft(
    plan: Plan,
    cells: &mut [u8],
    functions: &mut [u8],
    heights: &mut [i32],
    draft: Draft,
    list: &[u32],
    marks: &[u32],
    cell_list: &mut [u32],
    function_list: &mut [u32],
) -> Answer
    ensures { MeetsWithHeightsAndDraft (outcome_with_heights_and_draft calls.cells plan) draft list.now result cells functions heights marks cell_list function_list }
{
    drafting::refine(
        By::Cells,
        plan,
        cells,
        functions,
        heights,
        draft,
        list,
        marks,
        cell_list,
        function_list,
    )
    .into()
}

#[unsafe(no_mangle)]
pub extern "C" fn wallmirror_refine_functions_with_heights_and_draft(
    plan: Plan,
    cells: &mut [u8],
    functions: &mut [u8],
    heights: &mut [i32],
    draft: Draft,
    list: &[u32],
    marks: &[u32],
    cell_list: &mut [u32],
    function_list: &mut [u32],
) -> Answer
    ensures { MeetsWithHeightsAndDraft (outcome_with_heights_and_draft calls.functions plan) draft list.now result cells functions heights marks cell_list function_list }
{
    drafting::refine(
        By::Functions,
        plan,
        cells,
        functions,
        heights,
        draft,
        list,
        marks,
        cell_list,
        function_list,
    )
    .into()
}

#[unsafe(no_mangle)]
pub extern "C" fn wallmirror_open_with_draft(
    plan: Plan,
    cells: &mut [u8],
    functions: &mut [u8],
    draft: Draft,
) -> DraftAnswer
    ensures number { result.number ≡ (open_mesh plan cells.old functions.old).number }
    ensures cells { cells.new ≡ (open_mesh plan cells.old functions.old).cells }
    ensures functions { functions.new ≡ (open_mesh plan cells.old functions.old).functions }
    ensures draft { result.draft ≡ draft_after_open plan cells.old functions.old draft }
{
    DraftAnswer::new(draft, drafting::open_mesh(plan, cells, functions))
}

#[unsafe(no_mangle)]
pub extern "C" fn wallmirror_read_with_draft(
    file: &[u8],
    cells: &mut [u8],
    functions: &mut [u8],
    draft: Draft,
) -> ReadWithDraftAnswer
    ensures outcome { left_by_read result.answer cells functions ≡ read_mesh file.now cells.old functions.old }
    ensures draft { result.draft ≡ draft_after_read file.now cells.old functions.old draft }
{
    drafting::read_mesh(file, cells, functions, draft)
}

#[unsafe(no_mangle)]
pub extern "C" fn wallmirror_planes_len(plan: Plan) -> usize
    ensures { result ≡ planes_length plan }
{
    plane_calls::len(plan)
}

#[unsafe(no_mangle)]
pub extern "C" fn wallmirror_planes_open(
    plan: Plan,
    present: &mut [u64],
    refined: &mut [u64],
    functions: &mut [u8],
) -> u32
    ensures { left_by_open result present refined functions ≡ open_planes plan present.old refined.old functions.old }
{
    refusals::number_of(plane_calls::open(plan, present, refined, functions))
}

#[unsafe(no_mangle)]
pub extern "C" fn wallmirror_planes_check(
    plan: Plan,
    present: &[u64],
    refined: &[u64],
    functions: &[u8],
) -> u32
    ensures { result ≡ check_planes plan present.now refined.now functions.now }
{
    refusals::number_of(plane_calls::check(plan, present, refined, functions))
}

#[unsafe(no_mangle)]
pub extern "C" fn wallmirror_planes_count(
    plan: Plan,
    present: &[u64],
    refined: &[u64],
    functions: &[u8],
) -> Count
    ensures { result ≡ count_planes plan present.now refined.now functions.now }
{
    plane_calls::count(plan, present, refined, functions).into()
}

#[unsafe(no_mangle)]
pub extern "C" fn wallmirror_planes_refine_cells(
    plan: Plan,
    present: &mut [u64],
    refined: &mut [u64],
    functions: &mut [u8],
    marks: &[u32],
    cell_list: &mut [u32],
    function_list: &mut [u32],
) -> Answer
    ensures { MeetsOnPlanes (on_planes refine_cells plan) result present refined functions marks cell_list function_list }
{
    plane_calls::change(
        Call(Direction::Refine, By::Cells),
        plan,
        present,
        refined,
        functions,
        marks,
        cell_list,
        function_list,
    )
    .into()
}

#[unsafe(no_mangle)]
pub extern "C" fn wallmirror_planes_refine_functions(
    plan: Plan,
    present: &mut [u64],
    refined: &mut [u64],
    functions: &mut [u8],
    marks: &[u32],
    cell_list: &mut [u32],
    function_list: &mut [u32],
) -> Answer
    ensures { MeetsOnPlanes (on_planes refine_functions plan) result present refined functions marks cell_list function_list }
{
    plane_calls::change(
        Call(Direction::Refine, By::Functions),
        plan,
        present,
        refined,
        functions,
        marks,
        cell_list,
        function_list,
    )
    .into()
}

#[unsafe(no_mangle)]
pub extern "C" fn wallmirror_planes_coarsen_cells(
    plan: Plan,
    present: &mut [u64],
    refined: &mut [u64],
    functions: &mut [u8],
    marks: &[u32],
    cell_list: &mut [u32],
    function_list: &mut [u32],
) -> Answer
    ensures { MeetsOnPlanes (on_planes coarsen_cells plan) result present refined functions marks cell_list function_list }
{
    plane_calls::change(
        Call(Direction::Coarsen, By::Cells),
        plan,
        present,
        refined,
        functions,
        marks,
        cell_list,
        function_list,
    )
    .into()
}

#[unsafe(no_mangle)]
pub extern "C" fn wallmirror_planes_coarsen_functions(
    plan: Plan,
    present: &mut [u64],
    refined: &mut [u64],
    functions: &mut [u8],
    marks: &[u32],
    cell_list: &mut [u32],
    function_list: &mut [u32],
) -> Answer
    ensures { MeetsOnPlanes (on_planes coarsen_functions plan) result present refined functions marks cell_list function_list }
{
    plane_calls::change(
        Call(Direction::Coarsen, By::Functions),
        plan,
        present,
        refined,
        functions,
        marks,
        cell_list,
        function_list,
    )
    .into()
}

#[unsafe(no_mangle)]
pub extern "C" fn wallmirror_planes_from_cells(
    plan: Plan,
    cells: &[u8],
    present: &mut [u64],
    refined: &mut [u64],
) -> u32
    ensures { left_by_pack result present refined ≡ packed plan cells.now present.old refined.old }
{
    refusals::number_of(plane_calls::from_cells(plan, cells, present, refined))
}

#[unsafe(no_mangle)]
pub extern "C" fn wallmirror_planes_to_cells(
    plan: Plan,
    present: &[u64],
    refined: &[u64],
    cells: &mut [u8],
) -> u32
    ensures { left_by_unpack result cells ≡ unpacked plan present.now refined.now cells.old }
{
    refusals::number_of(plane_calls::to_cells(plan, present, refined, cells))
}

#[unsafe(no_mangle)]
pub extern "C" fn wallmirror_rounds(
    plan: Plan,
    cells: &[u8],
    functions: &[u8],
    wanted_cells: &[u8],
    wanted_functions: &[u8],
    marks: &mut [u32],
    lengths: &mut [u32],
) -> RoundsAnswer
    ensures { left_by_rounds result marks lengths ≡ find_rounds plan cells.now functions.now wanted_cells.now wanted_functions.now marks.old lengths.old }
{
    rounds::find(
        plan,
        cells,
        functions,
        wanted_cells,
        wanted_functions,
        marks,
        lengths,
    )
    .into()
}
