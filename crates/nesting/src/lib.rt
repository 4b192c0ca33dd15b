// The nesting of cells: refusal 4, which refined cells are reactivable, and the bytes of those that are not refined. Each cell is read with
// its parent, row by row. That the table has the cells of its plan stands in the clauses: each public function has two or
// three private ones below it, and a type for each would say no more than their one clause.
#![tactic(auto)]

ghost use Rattle.std.specs.Prelude.{◌≡◌, cond, ℕ, ◌+◌, ◌-◌, ◌*◌, ◌≤◌, ◌<◌, eqb, length};
ghost use Rattle.facts.specs.Numbers.{tabulate};
ghost use Rattle.facts.specs.Ranges.{every_from};
ghost use Rattle.facts.specs.Mapped.{mapped, filled};
ghost use Rattle.grid.specs.Plan.{ratio, columns_at, rows_at, cell_offset, cell_total};
ghost use Rattle.grid.specs.Range.{InRange};
ghost use Rattle.mesh.specs.Mesh.{active, refined, is_mesh, table_of};
ghost use Rattle.nesting.specs.Table.{CellTable, IsBelow, RowUnder};
ghost use Rattle.nesting.specs.Nested.{byte_fits, cell_byte_fits, most_at, nested};
ghost use Rattle.nesting.specs.Reactivable.{reactivable_byte, refined_byte, ruled_out};
ghost use Rattle.nesting.specs.Completed.{byte_in, completed};

use grid::Plan;

// A row of a level: its cells begin at `at`, and the row of their parents, `width` of them, at `over`.
#[derive(Clone, Copy)]
struct Row {
    at: usize,
    over: usize,
    width: usize,
}

// The level below `level`: its rows and columns, and where it begins. The level itself has rows of `width` cells and begins at `over`.
#[derive(Clone, Copy)]
struct Below {
    level: u32,
    rows: u32,
    columns: u32,
    at: u32,
    width: u32,
    over: u32,
}

impl Below {
    // The level below `level`.
    fn of(plan: Plan, level: u32) -> Below
        requires in_range { InRange plan }
        requires level_bound { level + 1 < plan.levels }
        ensures { (IsBelow plan result) × (result.level ≡ level) }
    {
        let next = level + 1;
        Below {
            level,
            rows: plan.rows_at(next),
            columns: plan.columns_at(next),
            at: plan.cell_offset(next),
            width: plan.columns_at(level),
            over: plan.cell_offset(level),
        }
    }

    // One of its rows.
    fn row(self, plan: Plan, row: u32) -> Row
        requires is_below { IsBelow plan self }
        requires row_bound { row < self.rows }
        ensures under { RowUnder plan self.level result.at result.over result.width }
        ensures at_value { result.at ≡ cell_offset plan (self.level + 1) + row * columns_at plan (self.level + 1) }
    {
        Row {
            at: (self.at + row * self.columns) as usize,
            over: (self.over + plan.coarser(row, 1) * self.width) as usize,
            width: self.width as usize,
        }
    }
}

// The cell is present just where it must be, and its byte is at most `most`.
fn byte_fits(byte: u8, most: u8, present: bool) -> bool
    ensures { result ≡ byte_fits most present byte }
{
    if byte == 0 {
        !present
    } else {
        present & (byte <= most)
    }
}

// The same of the n cells from `at` on. Here and below a run is given by its place in the table, of which the clauses speak.
fn all_fit(cells: &[u8], at: usize, n: usize, most: u8, present: bool) -> bool
    requires { at + n ≤ length cells.now }
    ensures { result ≡ every_from at n (cell_byte_fits cells.now most present) }
{
    let mut ok = true;
    for cell in &cells[at..at + n] {
        ok &= byte_fits(*cell, most, present);
    }
    ok
}

// The largest byte of a cell of the level: "no cell of level L-1 is split".
fn most_at(plan: Plan, level: u32) -> u8
    requires { level < plan.levels }
    ensures { result ≡ most_at plan level }
{
    if level + 1 == plan.levels { 1 } else { 2 }
}

// The cells of level 0: each is present.
fn first_level_fits(plan: Plan, cells: &[u8]) -> bool
    requires { CellTable plan cells.now }
    ensures { result ≡ every_from 0 (cell_offset plan 1) (nested plan cells.now) }
{
    let end = plan.cell_offset(1) as usize;
    all_fit(cells, 0, end, most_at(plan, 0), true)
}

// A row of the next level: the children of a cell are present just where it is refined.
fn row_fits(plan: Plan, cells: &[u8], level: u32, row: Row) -> bool
    requires row_under { RowUnder plan level row.at row.over row.width }
    requires cells_len { length cells.now ≡ cell_total plan }
    ensures { result ≡ every_from row.at (row.width * ratio plan) (nested plan cells.now) }
{
    let most = most_at(plan, level + 1);
    let ratio = plan.ratio() as usize;
    let mut ok = true;
    for column in 0..row.width {
        let present = cells[row.over + column] == 2;
        ok &= all_fit(cells, row.at + column * ratio, ratio, most, present);
    }
    ok
}

// The cells of the next level.
fn next_level_fits(plan: Plan, cells: &[u8], level: u32) -> bool
    requires cell_table { CellTable plan cells.now }
    requires level_bound { level + 1 < plan.levels }
    ensures { result ≡ every_from (cell_offset plan (level + 1)) (rows_at plan (level + 1) * columns_at plan (level + 1)) (nested plan cells.now) }
{
    let below = Below::of(plan, level);
    let mut ok = true;
    for row in 0..below.rows {
        ok &= row_fits(plan, cells, below.level, below.row(plan, row));
    }
    ok
}

// Refusal 4 is its opposite.
pub fn is_mesh(plan: Plan, cells: &[u8]) -> bool
    requires { CellTable plan cells.now }
    ensures { result ≡ is_mesh plan cells.now }
{
    let mut ok = first_level_fits(plan, cells);
    for level in 0..plan.levels - 1 {
        ok &= next_level_fits(plan, cells, level);
    }
    ok
}

// `kept` for a refined cell, 2 for any other.
fn refined_byte(byte: u8, kept: u8) -> u8
    ensures { result ≡ cond (eqb byte 2) kept 2 }
{
    if byte == 2 { kept } else { 2 }
}

// The same of the cells from `from` up to `to`.
fn refined_cells(cells: &[u8], out: &mut [u8], from: usize, to: usize, kept: u8)
    requires { (from ≤ to) × (to ≤ length cells.now) × (to ≤ length out.old) }
    ensures { out.new ≡ filled from (to - from) (refined_byte cells.now kept) out.old }
{
    // by index, since two slices go side by side
    for i in from..to {
        out[i] = refined_byte(cells[i], kept);
    }
}

// What a child leaves of its parent's byte: a child that is not active rules the parent out.
fn left_by(child: u8, byte: u8) -> u8
    ensures { result ≡ cond (eqb child 1) byte 2 }
{
    if child == 1 { byte } else { 2 }
}

// What the n children from `at` on leave of it.
fn left_by_all(cells: &[u8], at: usize, n: usize, byte: u8) -> u8
    requires { at + n ≤ length cells.now }
    ensures { result ≡ cond (every_from at n (active cells.now)) byte 2 }
{
    let mut left = byte;
    for child in &cells[at..at + n] {
        left = left_by(*child, left);
    }
    left
}

// A row of children.
fn rule_out_row(plan: Plan, cells: &[u8], out: &mut [u8], row: Row)
    requires by_index { (k : ℕ) × RowUnder plan k row.at row.over row.width }
    requires cells_len { (length cells.now ≡ cell_total plan) × (length out.old ≡ cell_total plan) }
    ensures { out.new ≡ mapped (ruled_out plan cells.now row.at (row.width * ratio plan)) out.old }
{
    let ratio = plan.ratio() as usize;
    for column in 0..row.width {
        let parent = row.over + column;
        out[parent] = left_by_all(cells, row.at + column * ratio, ratio, out[parent]);
    }
}

// The children on the next level.
fn rule_out_level(plan: Plan, cells: &[u8], out: &mut [u8], level: u32)
    requires cell_table { CellTable plan cells.now }
    requires out_len { length out.old ≡ cell_total plan }
    requires level_bound { level + 1 < plan.levels }
    ensures { out.new ≡ mapped (ruled_out plan cells.now (cell_offset plan (level + 1)) (rows_at plan (level + 1) * columns_at plan (level + 1))) out.old }
{
    let below = Below::of(plan, level);
    for row in 0..below.rows {
        rule_out_row(plan, cells, out, below.row(plan, row));
    }
}

// 1 for each reactivable cell, 2 for any other. A refined cell that has children is one until a child rules it out.
pub fn reactivable_cells(plan: Plan, cells: &[u8], out: &mut [u8])
    requires in_range { InRange plan }
    requires cells_len { (length cells.now ≡ cell_total plan) × (length out.old ≡ cell_total plan) }
    ensures { out.new ≡ tabulate (cell_total plan) (reactivable_byte plan cells.now) }
{
    let last = plan.levels - 1;
    let end = plan.cell_offset(last) as usize;
    refined_cells(cells, out, 0, end, 1);
    refined_cells(cells, out, end, cells.len(), 2);
    for level in 0..last {
        rule_out_level(plan, cells, out, level);
    }
}

// 2 for a refined cell; for any other 1 where it is present, 0 elsewhere.
fn completed_byte(byte: u8, present: bool) -> u8
    ensures { result ≡ cond (eqb byte 2) 2 (cond present 1 0) }
{
    if byte == 2 { 2 } else { u8::from(present) }
}

// The same of the n cells from `at` on.
fn complete_cells(cells: &mut [u8], at: usize, n: usize, present: bool)
    requires { at + n ≤ length cells.old }
    ensures { cells.new ≡ filled at n (byte_in (refined cells.old) present) cells.old }
{
    // by index, since a proof knows nothing of what iter_mut writes into a part
    for i in at..at + n {
        cells[i] = completed_byte(cells[i], present);
    }
}

// A row of the next level: the children of a cell are present just where it is refined.
fn complete_row(plan: Plan, cells: &mut [u8], row: Row)
    requires by_index { (k : ℕ) × RowUnder plan k row.at row.over row.width }
    requires cells_len { length cells.old ≡ cell_total plan }
    ensures { cells.new ≡ filled row.at (row.width * ratio plan) (completed plan (refined cells.old)) cells.old }
{
    let ratio = plan.ratio() as usize;
    for column in 0..row.width {
        let present = cells[row.over + column] == 2;
        complete_cells(cells, row.at + column * ratio, ratio, present);
    }
}

// The cells of the next level.
fn complete_level(plan: Plan, cells: &mut [u8], level: u32)
    requires cell_table { CellTable plan cells.old }
    requires level_bound { level + 1 < plan.levels }
    ensures { cells.new ≡ filled (cell_offset plan (level + 1)) (rows_at plan (level + 1) * columns_at plan (level + 1)) (completed plan (refined cells.old)) cells.old }
{
    let below = Below::of(plan, level);
    for row in 0..below.rows {
        complete_row(plan, cells, below.row(plan, row));
    }
}

// Gives each cell that is not refined the byte that it has in a table with these refined cells: 1 where it is of level 0 or its parent is
// refined, 0 elsewhere.
pub fn complete(plan: Plan, cells: &mut [u8])
    requires { CellTable plan cells.old }
    ensures { cells.new ≡ table_of plan (refined cells.old) }
{
    let end = plan.cell_offset(1) as usize;
    complete_cells(cells, 0, end, true);
    for level in 0..plan.levels - 1 {
        complete_level(plan, cells, level);
    }
}
