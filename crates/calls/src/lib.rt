// The four calls: refine and coarsen, by cells and by functions. Each takes any plan, tables, marks and lists; what document 01
// refuses gets its number and nothing is written. The marks are judged, and each cell that they mean gets a flag; then follow the two
// steps of document 000's algorithm 1: the mesh is settled, and the functions are relabelled from it.
#![tactic(auto)]

ghost use Rattle.std.specs.Prelude.{◌≡◌, List, ℕ, ◌≤◌, length};
ghost use Rattle.refusals.specs.Numbers.{number_of};
ghost use Rattle.grid.specs.Bounds.{most_cells};
ghost use Rattle.grid.specs.Plan.{cell_total, function_total};
ghost use Rattle.grid.specs.Range.{InRange};
ghost use Rattle.mesh.specs.Mesh.{check};
ghost use Rattle.outcomes.specs.Calls as calls;
ghost use Rattle.outcomes.specs.Calls.{outcome};
ghost use Rattle.outcomes.specs.Answers.{answer_of, settled_of};
ghost use Rattle.outcomes.specs.Steps.{settle_cells, in_steps};
ghost use Rattle.outcomes.specs.Meets.{left, left_cells, Meets};
ghost use Rattle.closure.specs.Ready.{Ready};
ghost use Rattle.calls.specs.Parts.{direction_of, by_of, Eligible, Kept, Scratch, Flags, renewed, Applicable};

use grid::{MOST_CELLS, MOST_FUNCTIONS, Plan};
use outcomes::Changes;
use refusals::Refusal;

// Which way a call goes. This and By stay enums with a match where their functions differ: the definitions say both by cases.
#[derive(Clone, Copy)]
pub enum Direction {
    Refine,
    Coarsen,
}

// What its marks are.
#[derive(Clone, Copy)]
pub enum By {
    Cells,
    Functions,
}

// One of the four calls.
#[derive(Clone, Copy)]
pub struct Call(pub Direction, pub By);

// Gives byte 1 to the cells that may be marked: the active ones, or the reactivable ones. Answers the first number that is too deep.
fn eligible_cells(direction: Direction, plan: Plan, cells: &[u8], kinds: &mut [u8]) -> u32
    requires in_range { InRange plan }
    requires cells_len { (length cells.now ≡ cell_total plan) × (length kinds.old ≡ cell_total plan) }
    ensures { (fs : List ℕ) → Eligible (direction_of direction) calls.cells plan cells.now fs result kinds.new }
{
    match direction {
        Direction::Refine => {
            changes::copy_bytes(kinds, cells);
            plan.cell_offset(plan.levels - 1)
        }
        Direction::Coarsen => {
            nesting::reactivable_cells(plan, cells, kinds);
            plan.cell_total()
        }
    }
}

// The same of functions: the active ones, or the deactivated ones with a reactivable cell, for which `scratch` is used.
fn eligible_functions(
    direction: Direction,
    plan: Plan,
    cells: &[u8],
    functions: &[u8],
    scratch: &mut [u8],
    kinds: &mut [u8],
) -> u32
    requires in_range { (InRange plan) × (cell_total plan ≤ most_cells) }
    requires cells_len { (length cells.now ≡ cell_total plan) × (length functions.now ≡ function_total plan) }
    requires scratch { Scratch plan scratch.old kinds.old }
    ensures { Eligible (direction_of direction) calls.functions plan cells.now functions.now result kinds.new }
{
    match direction {
        Direction::Refine => {
            changes::copy_bytes(kinds, functions);
            plan.function_offset(plan.levels - 1)
        }
        Direction::Coarsen => {
            nesting::reactivable_cells(plan, cells, scratch);
            cover::coarsenable_functions(plan, functions, scratch, kinds);
            plan.function_total()
        }
    }
}

// Of the cells that may be marked, those with byte 1 in `flags` keep it. Their table is made again here, and not kept from before: so it
// takes no room while the functions are weighed.
fn keep_eligible(direction: Direction, plan: Plan, cells: &[u8], flags: &mut [u8])
    requires in_range { (InRange plan) × (cell_total plan ≤ most_cells) }
    requires cells_len { (length cells.now ≡ cell_total plan) × (length flags.old ≡ cell_total plan) }
    ensures { Kept (direction_of direction) plan cells.now flags.old flags.new }
{
    let total = plan.cell_total() as usize;
    // no heap: room of the largest size, of which the front is used
    let mut room = [0u8; MOST_CELLS];
    let kinds = &mut room[..total];
    eligible_cells(direction, plan, cells, kinds);
    marks::keep(kinds, flags);
}

// Judges marks that are cells, and flags them.
fn flag_cells(
    direction: Direction,
    plan: Plan,
    cells: &[u8],
    marks: &[u32],
    flags: &mut [u8],
) -> Result<(), Refusal>
    requires in_range { InRange plan }
    requires cells_len { (length cells.now ≡ cell_total plan) × (length flags.old ≡ cell_total plan) }
    ensures { (fs : List ℕ) → Flags (direction_of direction) calls.cells plan cells.now fs marks.now (number_of result) flags.new }
{
    let deep = eligible_cells(direction, plan, cells, flags);
    marks::judge(flags, deep, marks)?;
    marks::weigh(cells, marks, flags);
    Ok(())
}

// Judges marks that are functions, and flags the cells that they mean: of the cells that may be marked, those over which the least weight
// is 1, where a marked function weighs 1, a deactivated one that is not marked 0, and any other 2.
fn flag_functions(
    direction: Direction,
    plan: Plan,
    cells: &[u8],
    functions: &[u8],
    marks: &[u32],
    flags: &mut [u8],
    values: &mut [u8],
) -> Result<(), Refusal>
    requires functions_value { check plan cells.now functions.now ≡ 0 }
    requires scratch { Scratch plan flags.old values.old }
    ensures { Flags (direction_of direction) calls.functions plan cells.now functions.now marks.now (number_of result) flags.new }
{
    let deep = eligible_functions(direction, plan, cells, functions, flags, values);
    marks::judge(values, deep, marks)?;
    marks::weigh(functions, marks, values);
    cover::cover(plan, values, flags);
    keep_eligible(direction, plan, cells, flags);
    Ok(())
}

// Judges the marks, and flags the cells that they mean.
// That the tables pass check stands in the clauses, here and in crates above, since docs/ARCHITECTURE.md names these functions.
pub fn flag_marks(
    call: Call,
    plan: Plan,
    cells: &[u8],
    functions: &[u8],
    marks: &[u32],
    flags: &mut [u8],
    values: &mut [u8],
) -> Result<(), Refusal>
    requires functions_value { check plan cells.now functions.now ≡ 0 }
    requires scratch { Scratch plan flags.old values.old }
    ensures { Flags (direction_of call.0) (by_of call.1) plan cells.now functions.now marks.now (number_of result) flags.new }
{
    let direction = call.0;
    let by = call.1;
    match by {
        By::Cells => flag_cells(direction, plan, cells, marks, flags),
        By::Functions => { flag_functions(direction, plan, cells, functions, marks, flags, values) }
    }
}

// The smallest admissible mesh with the flagged cells refined, or without them.
pub fn renew(direction: Direction, plan: Plan, cells: &mut [u8], flags: &[u8])
    requires { Ready (direction_of direction) plan cells.old flags.now }
    ensures { cells.new ≡ renewed (direction_of direction) plan cells.old flags.now }
{
    match direction {
        Direction::Refine => closure::refine_marked(plan, cells, flags),
        Direction::Coarsen => closure::coarsen_marked(plan, cells, flags),
    }
}

// The first step of a call: the cells of the new mesh are made beside the old ones; then 10 and 11, or they are taken over with their list.
fn settle_mesh(
    direction: Direction,
    plan: Plan,
    cells: &mut [u8],
    functions: &[u8],
    cell_list: &mut [u32],
    room: usize,
    flags: &[u8],
    made: &mut [u8],
) -> Result<u32, Refusal>
    requires { Applicable (direction_of direction) plan cells.old functions.now flags.now made.old }
    ensures { left_cells (settled_of result) cells cell_list ≡ settle_cells plan cells.old functions.now cell_list.old room (renewed (direction_of direction) plan cells.old flags.now) }
{
    let total = plan.cell_total() as usize;
    // no heap: room of the largest size, of which the front is used
    let mut cell_room = [0u8; MOST_CELLS];
    let new_cells = &mut cell_room[..total];
    new_cells.copy_from_slice(cells);
    renew(direction, plan, new_cells, flags);
    changes::settle_cells(plan, cells, functions, cell_list, room, new_cells, made)
}

// The two steps, one behind the other. Behind the first no cell is written: the second may only read them.
fn in_steps(
    direction: Direction,
    plan: Plan,
    cells: &mut [u8],
    functions: &mut [u8],
    cell_list: &mut [u32],
    function_list: &mut [u32],
    flags: &[u8],
    made: &mut [u8],
) -> Result<Changes, Refusal>
    requires { Applicable (direction_of direction) plan cells.old functions.old flags.now made.old }
    ensures { left (answer_of result) cells functions cell_list function_list ≡ in_steps plan cells.old functions.old cell_list.old function_list.old (renewed (direction_of direction) plan cells.old flags.now) }
{
    let room = function_list.len();
    let settled = settle_mesh(
        direction, plan, cells, functions, cell_list, room, flags, made,
    )?;
    let relabelled = changes::relabel(plan, cells, functions, function_list, made);
    Ok(Changes {
        cells: settled,
        functions: relabelled,
    })
}

// A call, when its tables are checked. The caller checks them, so that the rooms of the check and those of the change are not on the stack
// at the same time. The room for a byte of each function is used for what they weigh, and then for their new labels.
// Tables and lists are parameters of their own: a struct of mutable slices would need a clause that each field still lends the caller's.
pub fn change(
    checked: Result<(), Refusal>,
    call: Call,
    plan: Plan,
    cells: &mut [u8],
    functions: &mut [u8],
    marks: &[u32],
    cell_list: &mut [u32],
    function_list: &mut [u32],
) -> Result<Changes, Refusal>
    requires { number_of checked ≡ check plan cells.old functions.old }
    ensures { Meets (outcome (direction_of call.0) (by_of call.1) plan) (answer_of result) cells functions marks cell_list function_list }
{
    checked?;
    let total = plan.cell_total() as usize;
    let count = plan.function_total() as usize;
    // no heap: room of the largest size, of which the front is used
    let mut cell_room = [0u8; MOST_CELLS];
    let mut function_room = [0u8; MOST_FUNCTIONS];
    let flags = &mut cell_room[..total];
    let values = &mut function_room[..count];
    flag_marks(call, plan, cells, functions, marks, flags, values)?;
    in_steps(
        call.0,
        plan,
        cells,
        functions,
        cell_list,
        function_list,
        flags,
        values,
    )
}
