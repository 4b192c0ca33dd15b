// Two passes over the levels, by windows: which functions can be coarsened, and what values of functions say of the cells in their
// supports. They are what the calls by functions need to judge marks and to know which cells the marks mean.
#![tactic(auto)]

ghost use Rattle.std.specs.Prelude.{◌≡◌, ◌&&◌, cond, ◌+◌, ◌*◌, ◌≤◌, ◌<◌, eqb, length, get_or};
ghost use Rattle.facts.specs.Numbers.{tabulate};
ghost use Rattle.facts.specs.Mapped.{filled};
ghost use Rattle.grid.specs.Range.{InRange};
ghost use Rattle.grid.specs.Plan.{columns_at, rows_at, function_columns_at, function_rows_at, cell_offset, function_offset, cell_total, function_total};
ghost use Rattle.cover.specs.Cover.{coarsenable_byte, NonZero};
ghost use Rattle.cover.specs.Level.{picked, row_read, level_read, ReadIn};
ghost use Rattle.grid.specs.Side.{SideIn, firsts};
ghost use Rattle.windows.specs.Level.{least_value, ValueRoom};
ghost use Rattle.grid.specs.Bounds.{most_cells};

use grid::{MOST_FUNCTIONS, Plan, Side};

// 1 where a function has byte 2 and the least byte of its support is 1, 0 for any other.
// The number stands beside the slices, since each reaches to the end of its table.
fn pick(functions: &[u8], least: &[u8], out: &mut [u8], n: usize)
    requires { (n ≤ length functions.now) × (n ≤ length least.now) × (n ≤ length out.old) }
    ensures { out.new ≡ filled 0 n (picked functions.now least.now) out.old }
{
    for i in 0..n {
        out[i] = pick_one(functions[i], least[i]);
    }
}

fn pick_one(byte: u8, least: u8) -> u8
    ensures { result ≡ cond (eqb byte 2 && eqb least 1) 1 0 }
{
    u8::from((byte == 2) & (least == 1))
}

// The functions of a level.
// What is asked of the tables stands in three functions, each below the next, here and for cover: it is said of lent slices, and a struct
// of them would say it by way of its fields.
fn coarsenable_on(
    plan: Plan,
    functions: &[u8],
    reactivables: &[u8],
    out: &mut [u8],
    scratch: &mut [u8],
    least: &mut [u8],
    level: u32,
)
    requires in_range { InRange plan }
    requires functions_len { (length functions.now ≡ function_total plan) × (NonZero plan reactivables.now) × (length out.old ≡ function_total plan) }
    requires plan_in_bounds { (function_total plan ≤ length scratch.old) × (function_total plan ≤ length least.old) }
    requires level_lt_levels { level < plan.levels }
    ensures { out.new ≡ filled (function_offset plan level) (function_rows_at plan level * function_columns_at plan level) (coarsenable_byte plan functions.now reactivables.now) out.old }
{
    let columns = plan.function_columns_at(level) as usize;
    let rows = plan.function_rows_at(level) as usize;
    let at = plan.function_offset(level) as usize;
    let across = plan.degree_across as usize;
    let up = plan.degree_up as usize;
    windows::level(plan, reactivables, level, scratch, least, across, up);
    pick(&functions[at..], least, &mut out[at..], rows * columns);
}

fn coarsenable_levels(
    plan: Plan,
    functions: &[u8],
    reactivables: &[u8],
    out: &mut [u8],
    scratch: &mut [u8],
    least: &mut [u8],
)
    requires in_range { InRange plan }
    requires functions_len { (length functions.now ≡ function_total plan) × (NonZero plan reactivables.now) × (length out.old ≡ function_total plan) }
    requires plan_in_bounds { (function_total plan ≤ length scratch.old) × (function_total plan ≤ length least.old) }
    ensures { out.new ≡ tabulate (function_total plan) (coarsenable_byte plan functions.now reactivables.now) }
{
    for level in 0..plan.levels {
        coarsenable_on(plan, functions, reactivables, out, scratch, least, level);
    }
}

// 1 for each deactivated function with a reactivable cell in its support, 0 for any other.
pub fn coarsenable_functions(plan: Plan, functions: &[u8], reactivables: &[u8], out: &mut [u8])
    requires in_range { (InRange plan) × (cell_total plan ≤ most_cells) }
    requires functions_len { (length functions.now ≡ function_total plan) × (NonZero plan reactivables.now) × (length out.old ≡ function_total plan) }
    ensures { out.new ≡ tabulate (function_total plan) (coarsenable_byte plan functions.now reactivables.now) }
{
    // no heap: rooms of the largest size
    let mut scratch = [0u8; MOST_FUNCTIONS];
    let mut least = [0u8; MOST_FUNCTIONS];
    coarsenable_levels(plan, functions, reactivables, out, &mut scratch, &mut least);
}

// A row of cells: the value of each is read at its first function. Columns with no corner between them are one run of bytes.
fn read_row(table: &[u8], out: &mut [u8], across: Side)
    requires side_in { SideIn across }
    requires across_in_bounds { (firsts across ≤ length table.now) × (across.cells ≤ length out.old) }
    ensures { out.new ≡ filled 0 across.cells (row_read across table.now) out.old }
{
    let mut column = 0;
    // a while: each step goes to the end of a run, which only run_end knows
    while column < across.cells {
        let next = across.run_end(column);
        let at = across.first_over(column) as usize;
        let run = &table[at..at + (next - column) as usize];
        out[column as usize..next as usize].copy_from_slice(run);
        column = next;
    }
}

// A level of cells.
fn read_level(table: &[u8], out: &mut [u8], across: Side, up: Side)
    requires { ReadIn (length table.now) (length out.old) across up }
    ensures { out.new ≡ filled 0 (up.cells * across.cells) (level_read across up table.now) out.old }
{
    let columns = across.cells as usize;
    let left = across.degree as usize;
    let width = across.firsts() as usize + 2 * left;
    let below = up.degree as usize;
    // the place is added up and not multiplied
    let mut to = 0;
    for row in 0..up.cells {
        let at = (up.first_over(row) as usize + below) * width + left;
        read_row(&table[at..], &mut out[to..], across);
        to += columns;
    }
}

// The functions of a level, over its cells.
fn cover_on(
    plan: Plan,
    values: &[u8],
    out: &mut [u8],
    scratch: &mut [u8],
    table: &mut [u8],
    level: u32,
)
    requires in_range { InRange plan }
    requires values_len { (length values.now ≡ function_total plan) × (length out.old ≡ cell_total plan) }
    requires value_room { (ValueRoom plan (length scratch.old)) × (ValueRoom plan (length table.old)) }
    requires level_lt_levels { level < plan.levels }
    ensures { out.new ≡ filled (cell_offset plan level) (rows_at plan level * columns_at plan level) (least_value plan values.now) out.old }
{
    windows::functions(plan, values, level, scratch, table);
    let across = plan.across_at(level);
    let up = plan.up_at(level);
    let here = plan.cell_offset(level) as usize;
    read_level(table, &mut out[here..], across, up);
}

fn cover_levels(plan: Plan, values: &[u8], out: &mut [u8], scratch: &mut [u8], table: &mut [u8])
    requires in_range { InRange plan }
    requires values_len { (length values.now ≡ function_total plan) × (length out.old ≡ cell_total plan) }
    requires value_room { (ValueRoom plan (length scratch.old)) × (ValueRoom plan (length table.old)) }
    ensures { out.new ≡ tabulate (cell_total plan) (least_value plan values.now) }
{
    for level in 0..plan.levels {
        cover_on(plan, values, out, scratch, table, level);
    }
}

// The least value of the functions that have a cell in their supports, for each cell.
pub fn cover(plan: Plan, values: &[u8], out: &mut [u8])
    requires in_range { (InRange plan) × (cell_total plan ≤ most_cells) }
    requires values_len { (length values.now ≡ function_total plan) × (length out.old ≡ cell_total plan) }
    ensures { out.new ≡ tabulate (cell_total plan) (least_value plan values.now) }
{
    // no heap: rooms of the largest size
    let mut scratch = [0u8; MOST_FUNCTIONS];
    let mut table = [0u8; MOST_FUNCTIONS];
    cover_levels(plan, values, out, &mut scratch, &mut table);
}
