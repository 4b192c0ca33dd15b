// Heights that a refinement carries: a deactivated function passes its height to its children, level by level, coarsest first. Document 02,
// Req 08.
#![tactic(auto)]

ghost use Rattle.std.specs.Prelude.{◌≡◌, suc, ◌+◌, ◌-◌, ◌*◌, ◌≤◌, ◌<◌, pos, nat_abs, ◌*ℤ◌, length};
ghost use Rattle.grid.specs.Plan.{function_columns_at, function_rows_at, function_offset, function_total};
ghost use Rattle.heights.specs.Heights.{all_low};
ghost use Rattle.carry.specs.Carry.{only_active, carried};
ghost use Rattle.carry.specs.Steps.{most, row_passed, RowRoom, block_passed, BlockRoom, carried_from, Started, Underway, NoneLast, carried_on, Carriable};

use grid::Plan;
use twoscale::Children;

// The most functions of a plan that heights allow: what a table of carried heights needs.
pub const MOST_HEIGHTS: usize = 31076;

// The heights of the active functions, and 0 for the others.
pub fn only_active(functions: &[u8], heights: &[i32], out: &mut [i32])
    requires { (length functions.now ≡ length heights.now) × (length out.old ≡ length heights.now) }
    ensures { out.new ≡ only_active functions.now heights.now }
{
    // enumerate and no zip, here and in other crates: a proof knows the index, and of a zip's pairs less
    for (i, height) in heights.iter().enumerate() {
        out[i] = if functions[i] == 1 { *height } else { 0 };
    }
}

// So many quarters of a height, in the next level's unit.
fn part_of(height: i32, quarters: u32) -> i32
    requires { (quarters ≤ 4) × (nat_abs height * quarters ≤ most) }
    ensures { result ≡ height *ℤ pos quarters }
{
    height * quarters as i32
}

// A row of children, which begins at a place of the table, gets its quarters of a height.
fn pass_row(heights: &mut [i32], begin: usize, children: Children, height: i32)
    requires { RowRoom begin children height heights.old }
    ensures { heights.new ≡ row_passed begin children height heights.old }
{
    for j in children.first..=children.last {
        let at = begin + j as usize;
        let own = heights[at];
        heights[at] = own + part_of(height, children.quarters(j));
    }
}

// A function passes its height to its children, whose level has its functions from `offset` on, `width` to a row.
fn pass_function(
    f: usize,
    up: Children,
    across: Children,
    offset: usize,
    width: usize,
    heights: &mut [i32],
)
    requires { BlockRoom f offset width up across heights.old }
    ensures { heights.new ≡ block_passed f offset width up across heights.old }
{
    let height = heights[f];
    heights[f] = 0;
    for row in up.first..=up.last {
        let begin = offset + row as usize * width;
        pass_row(heights, begin, across, part_of(height, up.quarters(row)));
    }
}

// The deactivated functions of a row of a level pass theirs; those of height 0 have nothing to pass.
fn pass_functions(plan: Plan, functions: &[u8], level: u32, row: u32, heights: &mut [i32])
    requires underway { Underway plan functions.now (function_offset plan level + row * function_columns_at plan level) heights.old }
    requires level_bound { (suc level < plan.levels) × (row < function_rows_at plan level) }
    ensures { heights.new ≡ carried_from plan functions.now (function_offset plan level + row * function_columns_at plan level) (function_columns_at plan level) heights.old }
{
    let up = twoscale::children_of(plan.up_at(level), row);
    let count = plan.function_columns_at(level);
    let begin = plan.function_offset(level) + row * count;
    let offset = plan.function_offset(level + 1) as usize;
    let width = plan.function_columns_at(level + 1) as usize;
    for column in 0..count {
        let f = (begin + column) as usize;
        if (functions[f] == 2) & (heights[f] != 0) {
            let across = twoscale::children_of(plan.across_at(level), column);
            pass_function(f, up, across, offset, width, heights);
        }
    }
}

// Those of a level, row by row.
fn pass_level(plan: Plan, functions: &[u8], level: u32, heights: &mut [i32])
    requires underway { Underway plan functions.now (function_offset plan level) heights.old }
    requires level_bound { suc level < plan.levels }
    ensures { heights.new ≡ carried_from plan functions.now (function_offset plan level) (function_rows_at plan level * function_columns_at plan level) heights.old }
{
    let rows = plan.function_rows_at(level);
    for row in 0..rows {
        pass_functions(plan, functions, level, row, heights);
    }
}

// The deactivated functions pass their heights on, level by level, coarsest first. The table has the functions' labels after the
// refinement, and heights that start from 0 where a function was not active before it.
fn carry_on(plan: Plan, functions: &[u8], heights: &mut [i32])
    requires started { Started plan heights.old }
    requires functions_len { (length functions.now ≡ function_total plan) × (NoneLast plan functions.now) }
    ensures { heights.new ≡ carried plan functions.now (function_total plan) heights.old }
{
    let last = plan.levels - 1;
    for level in 0..last {
        pass_level(plan, functions, level, heights);
    }
}

// The heights of the new functions, made beside the lent ones, which are only read; whether all of them are low.
pub fn carry_beside(
    plan: Plan,
    functions: &[u8],
    new_functions: &[u8],
    heights: &[i32],
    out: &mut [i32],
) -> bool
    requires { Carriable plan functions.now new_functions.now heights.now out.old }
    ensures out_after { out.new ≡ carried_on plan functions.now new_functions.now heights.now }
    ensures value { result ≡ all_low plan new_functions.now out.new }
{
    only_active(functions, heights, out);
    carry_on(plan, new_functions, out);
    heights::all_low(plan, new_functions, out)
}
