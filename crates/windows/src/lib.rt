// The least bytes of windows: of each place of a level, in some rows and columns up to it. Both directions are one loop over whole runs of
// bytes, the smaller of two runs of which one begins later.
#![tactic(auto)]

ghost use Rattle.std.specs.Prelude.{◌≡◌, ◌+◌, ◌-◌, ◌*◌, ◌≤◌, ◌<◌, length, get_or};
ghost use Rattle.facts.specs.Mapped.{filled};
ghost use Rattle.windows.specs.Windows.{always, lowered, least_of, slid, in_rows, row_slid, Windowed, SlideIn, RowsIn, LevelIn};
ghost use Rattle.windows.specs.Level.{placed_row, placed, Twos, PlaceIn, level_least, wide, high, LevelRoom, ValueRoom, NearRoom, ValueTable};
ghost use Rattle.windows.specs.Near.{RepeatIn, repeated, has_near, near_byte, NearTable};
ghost use Rattle.grid.specs.Plan.{cell_total, function_total, CellInside};
ghost use Rattle.grid.specs.Range.{InRange};
ghost use Rattle.grid.specs.Side.{SideIn, firsts};

use grid::{Place, Plan, Side};

// Each entry that `from` has one for becomes the smaller of both.
fn lower(out: &mut [u8], from: &[u8])
    requires { length from.now ≤ length out.old }
    ensures { out.new ≡ lowered (length from.now) from.now out.old }
{
    for (i, x) in from.iter().enumerate() {
        out[i] = out[i].min(*x);
    }
}

// The first n entries get one value. A number and no shorter slice: crate closure calls it so.
// A loop: the library's fill takes longer for the two columns of a cell's children.
pub fn fill(out: &mut [u8], n: usize, value: u8)
    requires { n ≤ length out.old }
    ensures { out.new ≡ filled 0 n (always value) out.old }
{
    for i in 0..n {
        out[i] = value;
    }
}

// Each of the first n entries becomes the least of 2 and those of `a` and `b`.
// A number and no shorter slices: parts are joined by a law on slices that reach to the table's end.
fn least_of(out: &mut [u8], a: &[u8], b: &[u8], n: usize)
    requires { (n ≤ length out.old) × (n ≤ length a.now) × (n ≤ length b.now) }
    ensures { out.new ≡ filled 0 n (least_of a.now b.now) out.old }
{
    for i in 0..n {
        out[i] = 2u8.min(a[i]).min(b[i]);
    }
}

// Entry t is the least of those of `from` at t and t - step, as far as there are such, in one pass; where `slide` goes on it is 2.
// How many entries, how far and how often are numbers, here and below, and no struct: each call has others.
fn pair(from: &[u8], out: &mut [u8], n: usize, step: usize, times: usize)
    requires { SlideIn (length from.now) (length out.old) n step times }
    ensures { out.new ≡ filled 0 (n + times * step) (slid from.now n step 2) out.old }
{
    least_of(out, from, from, step);
    least_of(&mut out[step..], &from[step..], from, n - step);
    least_of(&mut out[n..], &from[n - step..], &from[n - step..], step);
    fill(&mut out[n + step..], (times - 1) * step, 2);
}

// One direction: entry t is the least of those of `from` at t, t - step, .., t - times * step, as far as there are such.
fn slide(from: &[u8], out: &mut [u8], n: usize, step: usize, times: usize)
    requires { SlideIn (length from.now) (length out.old) n step times }
    ensures { out.new ≡ filled 0 (n + times * step) (slid from.now n step (times + 1)) out.old }
{
    pair(from, out, n, step, times);
    for d in 1..times {
        lower(&mut out[(d + 1) * step..], &from[..n]);
    }
}

// The same in the table itself, in fewer passes: windows of half as many entries, and of these the two that make up the whole.
fn slide_twice(table: &mut [u8], other: &mut [u8], n: usize, step: usize, times: usize)
    requires { (SlideIn (length table.old) (length other.old) n step times) × (n + times * step ≤ length table.old) }
    ensures { table.new ≡ filled 0 (n + times * step) (slid table.old n step (times + 1)) table.old }
{
    let rest = times / 2;
    let half = times - rest;
    slide(table, other, n, step, half);
    slide(other, table, n + half * step, rest * step, 1);
}

// A row, with 2 in the columns after it.
fn spread_row(from: &[u8], out: &mut [u8], columns: usize, across: usize)
    requires { (columns ≤ length from.now) × (columns + across ≤ length out.old) }
    ensures { out.new ≡ filled 0 (columns + across) (slid from.now columns 1 1) out.old }
{
    fill(out, columns + across, 2);
    lower(out, &from[..columns]);
}

// Each row, with 2 in the columns after it.
fn spread(from: &[u8], out: &mut [u8], columns: usize, rows: usize, across: usize)
    requires { RowsIn (length from.now) (length out.old) columns rows across }
    ensures { out.new ≡ filled 0 (rows * (columns + across)) (row_slid (in_rows from.now columns) columns across 1) out.old }
{
    let width = columns + across;
    for row in 0..rows {
        spread_row(
            &from[row * columns..],
            &mut out[row * width..],
            columns,
            across,
        );
    }
}

// A row of cells, each at the place of its first function, in a table of 2. Columns with no corner between them are one run of bytes.
fn place_row(side: Side, from: &[u8], out: &mut [u8])
    requires side_in { SideIn side }
    requires cells_in_bounds { (side.cells ≤ length from.now) × (firsts side ≤ length out.old) }
    requires twos { Twos (firsts side) out.old }
    ensures { out.new ≡ filled 0 (firsts side) (placed_row side (λ x. get_or from.now x 0)) out.old }
{
    let mut x = 0;
    // a while: each step goes to the end of a run, which only run_end knows
    while x < side.cells {
        let next = side.run_end(x);
        let at = side.first_over(x) as usize;
        lower(&mut out[at..], &from[x as usize..next as usize]);
        x = next;
    }
}

// Rows of cells, each at the places of its first functions across, and up where those of every `step`-th row of the level are, with 2
// between them and in `more` columns after them.
fn place(across: Side, up: Side, step: u32, rows: u32, from: &[u8], out: &mut [u8], more: usize)
    requires { PlaceIn across up step rows (length from.now) (length out.old) more }
    ensures { out.new ≡ filled 0 (firsts up * (firsts across + more)) (row_slid (placed across up step rows from.now) (firsts across) more 1) out.old }
{
    let columns = across.cells as usize;
    let width = across.firsts() as usize + more;
    let high = up.firsts() as usize;
    fill(out, high * width, 2);
    for row in 0..rows {
        let first = row as usize * columns;
        let at = up.first_over(row * step) as usize * width;
        place_row(across, &from[first..], &mut out[at..]);
    }
}

// Of a table of rows that stand apart by `across` columns of 2, with `up` more rows: the least byte in rows j - up to j and columns
// i - across to i. All rows are slid at once: what stands after a row keeps it apart from the next.
fn windows(
    scratch: &mut [u8],
    out: &mut [u8],
    columns: usize,
    rows: usize,
    across: usize,
    up: usize,
)
    requires { LevelIn (length scratch.old) (length out.old) columns rows across up }
    ensures { Windowed out.old out.new columns rows across up }
{
    let width = columns + across;
    let size = rows * width;
    slide(out, scratch, size - across, 1, across);
    slide(scratch, out, size, width, up);
}

// The same, where both tables are large enough for the windows: those of neighbourhoods are twice as wide as others.
// Two functions: windows of degree 1 would take twice the passes this way, and to hand over how to slide is no shorter.
fn wide_windows(
    scratch: &mut [u8],
    out: &mut [u8],
    columns: usize,
    rows: usize,
    across: usize,
    up: usize,
)
    requires { (LevelIn (length scratch.old) (length out.old) columns rows across up) × ((rows + up) * (columns + across) ≤ length scratch.old) }
    ensures { Windowed out.old out.new columns rows across up }
{
    let width = columns + across;
    let size = rows * width;
    slide_twice(out, scratch, size - across, 1, across);
    slide_twice(out, scratch, size, width, up);
}

// A level's cells, each where its first functions are: the least byte of the cells there and at most `up` rows and `across` columns before.
pub fn level(
    plan: Plan,
    cells: &[u8],
    level: u32,
    scratch: &mut [u8],
    out: &mut [u8],
    across: usize,
    up: usize,
)
    requires { LevelRoom plan level (length cells.now) (length scratch.old) (length out.old) across up }
    ensures { out.new ≡ filled 0 (high plan level up * wide plan level across) (level_least plan cells.now level across up) out.old }
{
    let columns = plan.across_at(level);
    let rows = plan.up_at(level);
    let here = plan.cell_offset(level) as usize;
    place(columns, rows, 1, rows.cells, &cells[here..], out, across);
    windows(
        scratch,
        out,
        columns.firsts() as usize,
        rows.firsts() as usize,
        across,
        up,
    );
}

// A level's functions: the least value of those over a cell is where the windows of the degrees end, after the cell's first functions.
pub fn functions(plan: Plan, values: &[u8], level: u32, scratch: &mut [u8], out: &mut [u8])
    requires in_range { (InRange plan) × (level < plan.levels) × (length values.now ≡ function_total plan) }
    requires value_room { (ValueRoom plan (length scratch.old)) × (ValueRoom plan (length out.old)) }
    ensures { ValueTable plan values.now out.new level }
{
    let columns = plan.function_columns_at(level) as usize;
    let rows = plan.function_rows_at(level) as usize;
    let here = plan.function_offset(level) as usize;
    let across = plan.degree_across as usize;
    let up = plan.degree_up as usize;
    spread(&values[here..], out, columns, rows, across);
    windows(scratch, out, columns, rows, across, up);
}

// Cells of a level have neighbourhoods.
fn has_near(plan: Plan, level: u32) -> bool
    requires { (InRange plan) × (level < plan.levels) }
    ensures { result ≡ has_near plan level }
{
    (plan.class != 0) & (plan.class <= level + 1)
}

// Each byte as many times as columns stand on one: rows of a level make rows of the columns of the next.
fn repeat(plan: Plan, from: &[u8], out: &mut [u8], n: u32)
    requires { RepeatIn plan n (length from.now) (length out.old) }
    ensures { out.new ≡ filled 0 n (repeated plan from.now) out.old }
{
    for x in 0..n {
        out[x as usize] = from[plan.coarser(x, 1) as usize];
    }
}

// The table of the neighbourhoods of a level's cells, where they have some: windows over the rows of the neighbourhoods' level, on the
// columns of the next, where the ancestors are. Each row stands where the first of the rows on it does.
pub fn neighbourhoods(plan: Plan, cells: &[u8], fine: u32, scratch: &mut [u8], near: &mut [u8])
    requires in_range { (InRange plan) × (fine + 1 < plan.levels) × (cell_total plan ≤ length cells.now) }
    requires near_room { (NearRoom plan (length scratch.old)) × (NearRoom plan (length near.old)) }
    ensures { NearTable plan cells.now near.new fine }
{
    if has_near(plan, fine) {
        let level = fine - (plan.class - 2);
        let columns = plan.across_at(level);
        let rows = plan.up_at(level);
        let step = plan.ratio();
        let above = level - 1;
        let coarse = plan.rows_at(above);
        let here = plan.cell_offset(above) as usize;
        let across = (2 * plan.degree_across) as usize;
        let up = (2 * plan.degree_up + (step - 1)) as usize;
        repeat(plan, &cells[here..], scratch, coarse * columns.cells);
        place(columns, rows, step, coarse, scratch, near, across);
        wide_windows(
            scratch,
            near,
            columns.firsts() as usize,
            rows.firsts() as usize,
            across,
            up,
        );
    }
}

// The least byte of the neighbourhood of the cell at a place, by the table of its level; 2 where it has none.
pub fn least_near(plan: Plan, near: &[u8], place: Place) -> u8
    requires in_range { InRange plan }
    requires cell_inside { (CellInside plan place) × (place.level + 1 < plan.levels) }
    requires near_room { NearRoom plan (length near.now) }
    ensures { result ≡ near_byte plan near.now place }
{
    let level = place.level;
    if has_near(plan, level) {
        let above = plan.ancestor_of(place);
        let coarse = above.level;
        let across = plan.across_at(coarse);
        let up = plan.up_at(coarse);
        let row = up.first_over(above.row) as usize + plan.degree_up as usize;
        let column = across.first_over(above.column) as usize + plan.degree_across as usize;
        let width = across.firsts() as usize + (2 * plan.degree_across) as usize;
        near[row * width + column]
    } else {
        2
    }
}
