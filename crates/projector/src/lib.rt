// The corners of a mesh's active cells, for the projector that throws the grid on the plywood: document 02, Req 06.
#![tactic(auto)]

ghost use Rattle.std.specs.Prelude.{◌≡◌, ◌+◌, ◌≤◌, ◌<◌, length};
ghost use Rattle.facts.specs.Writing.{Writes};
ghost use Rattle.refusals.specs.Numbers.{number_of};
ghost use Rattle.grid.specs.Plan.{cell_total, CellInside};
ghost use Rattle.grid.specs.Range.{InRange};
ghost use Rattle.projector.specs.Projector.{line_at, corner_of, corners_of, corners, three_words, words_of, mesh_refusal, filled, project};
ghost use Rattle.projector.specs.Steps.{left_by_corners, Numbers, Ready, answered};

use grid::{Cell, Place, Plan};
use refusals::Refusal;

// The most cells that a mesh may have here, of all levels together.
const MOST_PROJECTED: u32 = 1024;

// A corner of a cell: where it is, in cells of the last level, and the height of the surface there in millimetres.
#[derive(Clone, Copy)]
pub struct Corner {
    pub across: f64,
    pub up: f64,
    pub height: f64,
}

// How many corners were written, or a refusal, for C, which has no enum that holds a value: 0 and the corners, or a refusal and 0.
#[repr(C)]
#[derive(Clone, Copy)]
pub struct CornersAnswer {
    pub number: u32,
    pub corners: u32,
}

impl From<Result<u32, Refusal>> for CornersAnswer {
    ghost from_gives = { λ corners answer. answer ≡ answered corners };

    fn from(corners: Result<u32, Refusal>) -> CornersAnswer {
        match corners {
            Ok(corners) => CornersAnswer { number: 0, corners },
            Err(refusal) => CornersAnswer {
                number: u32::from(refusal),
                corners: 0,
            },
        }
    }
}

// The line before column (or row) x of a level, in cells of the last level.
fn line_at(plan: Plan, level: u32, x: u32) -> u32
    requires in_range { InRange plan }
    requires level_lt_levels { level < plan.levels }
    requires x_bound { x ≤ 2048 }
    ensures { result ≡ line_at plan level x }
{
    plan.grown(x, plan.levels - 1 - level)
}

// A corner of the cell at a place: on its left (0) or right (1) line, and on its lower (0) or upper (1) one.
// The two sides are numbers and no bools, since they are added to the column and the row.
// `Ready` stands in four functions, each below the next: it is said of lent slices, and a struct of them would say it by way of its fields.
fn corner_of(
    plan: Plan,
    functions: &[u8],
    heights: &[i32],
    place: Place,
    right: u32,
    upper: u32,
) -> Corner
    requires ready { Ready plan functions.now heights.now }
    requires cell_inside { CellInside plan place }
    requires right_bound { (right ≤ 1) × (upper ≤ 1) }
    ensures { result ≡ corner_of plan functions.now heights.now place right upper }
{
    let level = place.level;
    let column = place.column + right;
    let row = place.row + upper;
    let across = line_at(plan, level, column);
    let up = line_at(plan, level, row);
    // a point of the surface is eighths of a cell
    let height = heights::height_at(plan, functions, heights, across * 8, up * 8);
    Corner {
        across: f64::from(across),
        up: f64::from(up),
        height,
    }
}

// A corner put at a place of the output, its floats as their bits; the place after it. The output is lent whole, as the clauses speak of it.
fn put(out: &mut [u64], at: usize, corner: Corner) -> usize
    requires at_in_bounds { at + 3 ≤ length out.old }
    requires numbers { Numbers corner }
    ensures { Writes out.old at (three_words corner) result out.new }
{
    let end = at + 3;
    out[at..end].copy_from_slice(&[
        corner.across.to_bits(),
        corner.up.to_bits(),
        corner.height.to_bits(),
    ]);
    end
}

// The corners of a cell: lower left, lower right, upper left, upper right.
fn put_cell(
    plan: Plan,
    functions: &[u8],
    heights: &[i32],
    place: Place,
    out: &mut [u64],
    at: usize,
) -> usize
    requires ready { Ready plan functions.now heights.now }
    requires cell_inside { CellInside plan place }
    requires at_in_bounds { at + 12 ≤ length out.old }
    ensures { Writes out.old at (words_of (corners_of plan functions.now heights.now place)) result out.new }
{
    let at2 = put(out, at, corner_of(plan, functions, heights, place, 0, 0));
    let at3 = put(out, at2, corner_of(plan, functions, heights, place, 1, 0));
    let at4 = put(out, at3, corner_of(plan, functions, heights, place, 0, 1));
    put(out, at4, corner_of(plan, functions, heights, place, 1, 1))
}

// The corners of all active cells; the place after them.
fn put_all(plan: Plan, cells: &[u8], functions: &[u8], heights: &[i32], out: &mut [u64]) -> usize
    requires ready { Ready plan functions.now heights.now }
    requires cells_len { length cells.now ≡ cell_total plan }
    requires cells_in_bounds { length (words_of (corners plan functions.now heights.now cells.now)) ≤ length out.old }
    ensures { Writes out.old 0 (words_of (corners plan functions.now heights.now cells.now)) result out.new }
{
    let mut at = 0;
    for (c, cell) in cells.iter().enumerate() {
        if *cell == 1 {
            let place = plan.cell_place(Cell(c as u32));
            at = put_cell(plan, functions, heights, place, out, at);
        }
    }
    at
}

// The first of refusals 1, 2, 16 and 3 to 6, if any.
fn mesh_refusal(plan: Plan, cells: &[u8], functions: &[u8]) -> Result<(), Refusal>
    ensures { number_of result ≡ mesh_refusal plan cells.now functions.now }
{
    plan.refusal()?;
    if plan.cell_total() > MOST_PROJECTED {
        return Err(Refusal::TooManyCellsToProject);
    }
    tables::check(plan, cells, functions)
}

// Fills the output, when nothing but its length can be refused.
fn fill(
    plan: Plan,
    cells: &[u8],
    functions: &[u8],
    heights: &[i32],
    out: &mut [u64],
) -> Result<u32, Refusal>
    requires ready { Ready plan functions.now heights.now }
    requires cells_len { length cells.now ≡ cell_total plan }
    ensures { left_by_corners (answered result) out ≡ filled (corners plan functions.now heights.now cells.now) out.old }
{
    let count = tables::bytes::tally(cells, 1);
    if out.len() < 12 * count as usize {
        return Err(Refusal::CellListTooShort);
    }
    put_all(plan, cells, functions, heights, out);
    Ok(4 * count)
}

// Four corners for each active cell, in rising order, and how many there are; nothing is written with a refusal. The output is lent as
// words of 64 bits, each the bits of a float: so what is not written keeps its bits, whatever they are, and not only its value as a float.
pub fn corners(
    plan: Plan,
    cells: &[u8],
    functions: &[u8],
    heights: &[i32],
    out: &mut [u64],
) -> Result<u32, Refusal>
    ensures { left_by_corners (answered result) out ≡ project plan cells.now functions.now heights.now out.old }
{
    mesh_refusal(plan, cells, functions)?;
    heights::refusal(plan, functions, heights)?;
    fill(plan, cells, functions, heights, out)
}
