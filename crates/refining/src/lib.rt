// Refine with heights: the surface keeps its shape. Document 02, Req 08. What 1 to 11 refuse is decided first, as without heights, and the
// new tables are made beside the old ones; then the heights are carried beside the old ones and 17 is decided; only then is anything
// written.
#![tactic(auto)]

ghost use Rattle.std.specs.Prelude.{◌≡◌, length};
ghost use Rattle.refusals.specs.Numbers.{number_of};
ghost use Rattle.outcomes.specs.Answers.{answer_of};
ghost use Rattle.grid.specs.Plan.{cell_total, function_total};
ghost use Rattle.mesh.specs.Mesh.{check};
ghost use Rattle.calls.specs.Parts.{by_of};
ghost use Rattle.refining.specs.Refining.{tables_refusal, outcome_with_heights};
ghost use Rattle.refining.specs.Steps.{Made, Ready, finished, MeetsWithHeights, left_with_heights};

use calls::{By, Call, Direction};
use carry::MOST_HEIGHTS;
use grid::{MOST_CELLS, MOST_FUNCTIONS, Plan};
use outcomes::Changes;
use refusals::Refusal;

// The first refusal of the tables and then of the heights, 1 to 6 and 3, 14, 15, if any.
pub fn tables_refusal(
    plan: Plan,
    cells: &[u8],
    functions: &[u8],
    heights: &[i32],
) -> Result<(), Refusal>
    ensures { number_of result ≡ tables_refusal plan cells.now functions.now heights.now }
{
    tables::check(plan, cells, functions)?;
    heights::refusal(plan, functions, heights)
}

// The first of refusals 7 to 11, if any, or the cells and functions of the refined mesh, made beside the old ones, which are only read, as
// are of both lists the lengths.
#[inline(never)]
fn make(
    by: By,
    plan: Plan,
    cells: &[u8],
    functions: &[u8],
    marks: &[u32],
    cell_room: usize,
    function_room: usize,
    new_cells: &mut [u8],
    new_functions: &mut [u8],
) -> Result<(), Refusal>
    requires functions_value { check plan cells.now functions.now ≡ 0 }
    requires new_cells_len { (length new_cells.old ≡ cell_total plan) × (length new_functions.old ≡ function_total plan) }
    ensures { Made (by_of by) plan cells.now functions.now marks.now cell_room function_room (number_of result) new_cells.new new_functions.new }
{
    let total = plan.cell_total() as usize;
    // no heap: room of the largest size, of which the front is used
    let mut room = [0u8; MOST_CELLS];
    let flags = &mut room[..total];
    let call = Call(Direction::Refine, by);
    calls::flag_marks(call, plan, cells, functions, marks, flags, new_functions)?;
    changes::copy_bytes(new_cells, cells);
    calls::renew(Direction::Refine, plan, new_cells, flags);
    changes::room_refusal(
        plan,
        cells,
        functions,
        cell_room,
        function_room,
        new_cells,
        new_functions,
    )?;
    labels::write_labels(plan, new_cells, new_functions);
    Ok(())
}

// When the new cells and functions are known: 17, or all is written, the cells, the functions, the heights and both lists.
#[inline(never)]
fn finish(
    plan: Plan,
    cells: &mut [u8],
    functions: &mut [u8],
    heights: &mut [i32],
    cell_list: &mut [u32],
    function_list: &mut [u32],
    new_cells: &[u8],
    new_functions: &[u8],
) -> Result<Changes, Refusal>
    requires { Ready plan cells.old functions.old heights.old cell_list.old function_list.old new_cells.now new_functions.now }
    ensures { left_with_heights (answer_of result) cells functions heights cell_list function_list ≡ finished plan cells.old functions.old heights.old cell_list.old function_list.old new_cells.now new_functions.now }
{
    let count = plan.function_total() as usize;
    // no heap: room of the largest size, of which the front is used
    let mut room = [0i32; MOST_HEIGHTS];
    let carried = &mut room[..count];
    let low = carry::carry_beside(plan, functions, new_functions, heights, carried);
    if !low {
        return Err(Refusal::CarriedHeightOutOfRange);
    }
    let changed_cells = changes::take_over(cells, cell_list, new_cells);
    let changed_functions = changes::take_over(functions, function_list, new_functions);
    carry::only_active(functions, carried, heights);
    Ok(Changes {
        cells: changed_cells,
        functions: changed_functions,
    })
}

// Refine by cells or by functions, when the tables and the heights are checked. The caller checks them, so that the rooms of the check and
// those of the refinement are not on the stack at the same time; nor are those of `make` and of `finish`, which are not inlined.
pub fn refine(
    by: By,
    checked: Result<(), Refusal>,
    plan: Plan,
    cells: &mut [u8],
    functions: &mut [u8],
    heights: &mut [i32],
    marks: &[u32],
    cell_list: &mut [u32],
    function_list: &mut [u32],
) -> Result<Changes, Refusal>
    requires { number_of checked ≡ tables_refusal plan cells.old functions.old heights.old }
    ensures { MeetsWithHeights (outcome_with_heights (by_of by) plan) (answer_of result) cells functions heights marks cell_list function_list }
{
    checked?;
    let total = plan.cell_total() as usize;
    let count = plan.function_total() as usize;
    // no heap: room of the largest size, of which the front is used
    let mut cell_room = [0u8; MOST_CELLS];
    let mut function_room = [0u8; MOST_FUNCTIONS];
    let new_cells = &mut cell_room[..total];
    let new_functions = &mut function_room[..count];
    make(
        by,
        plan,
        cells,
        functions,
        marks,
        cell_list.len(),
        function_list.len(),
        new_cells,
        new_functions,
    )?;
    finish(
        plan,
        cells,
        functions,
        heights,
        cell_list,
        function_list,
        new_cells,
        new_functions,
    )
}
