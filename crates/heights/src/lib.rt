// The height of the surface at a point: the sum over active functions of height times B-spline value, in which no bit is rounded away.
#![tactic(auto)]

ghost use Rattle.std.specs.Prelude.{◌≡◌, ◌+◌, ◌*◌, ◌≤◌, ◌<◌, pos, length};
ghost use Rattle.refusals.specs.Numbers.{number_of};
ghost use Rattle.exact.specs.Dyadic.{dyadic};
ghost use Rattle.grid.specs.Plan.{function_total};
ghost use Rattle.grid.specs.Range.{InRange};
ghost use Rattle.heights.specs.Height.{told};
ghost use Rattle.heights.specs.Heights.{eighths, on_mesh, height_sum, places, inexact, all_low, heights_refusal, answer, flattened};
ghost use Rattle.heights.specs.Steps.{Unit, OnSurface, level_part};

use grid::{Place, Plan};
use refusals::Refusal;
use sums::Part;

mod limits; // how large heights may be
mod sums; // the functions over a point, row by row

// The height in millimetres, or a refusal, for C, which has no enum that holds a value: 0 and the height, or a refusal and 0.
#[repr(C)]
#[derive(Clone, Copy)]
pub struct HeightAnswer {
    pub number: u32,
    pub height: f64,
}

impl From<Result<f64, Refusal>> for HeightAnswer {
    ghost from_gives = { λ answer flat. flat ≡ flattened (told answer) };

    fn from(answer: Result<f64, Refusal>) -> HeightAnswer {
        match answer {
            Ok(height) => HeightAnswer { number: 0, height },
            Err(refusal) => HeightAnswer {
                number: u32::from(refusal),
                height: 0.0,
            },
        }
    }
}

// How many points make a cell of a level.
fn eighths(plan: Plan, level: u32) -> u32
    requires { (plan.levels ≤ 4) × (level < plan.levels) }
    ensures { (result ≡ eighths plan level) × (result ≤ 64) }
{
    plan.grown(8, plan.levels - 1 - level)
}

// One part of a sum, in millimetres.
fn unit(levels: u32) -> f64
    requires { levels ≤ 4 }
    ensures { result ≡ dyadic (places levels) (pos 1) }
{
    let mut unit = 0.0009765625;
    for _level in 0..levels {
        unit = unit * 0.0625;
    }
    unit
}

// What a level adds: of its functions only those over the point are read. Functions and heights are two slices and no struct, which would make
// each clause longer.
fn level_height(
    plan: Plan,
    functions: &[u8],
    heights: &[i32],
    level: u32,
    across: u32,
    up: u32,
    part: Part,
) -> f64
    requires on_surface { OnSurface plan functions.now heights.now across up }
    requires level_lt_levels { level < plan.levels }
    requires same_levels { part.levels ≡ plan.levels }
    ensures { result ≡ dyadic (places plan.levels) (level_part plan functions.now heights.now across up level) }
{
    let parts = eighths(plan, level);
    let columns = plan.across_at(level);
    let rows = plan.up_at(level);
    let x = splines::locate(columns, parts, across);
    let y = splines::locate(rows, parts, up);
    let row = rows.first_over(y.cell);
    let column = columns.first_over(x.cell);
    let first = plan.function_number(Place { level, row, column });
    let width = plan.function_columns_at(level) as usize;
    sums::rows(functions, heights, first.0 as usize, width, x, y, part)
}

// The height at a point of the mesh, for heights that are not refused.
pub fn height_at(plan: Plan, functions: &[u8], heights: &[i32], across: u32, up: u32) -> f64
    requires { OnSurface plan functions.now heights.now across up }
    ensures { result ≡ dyadic (places plan.levels) (height_sum plan functions.now heights.now across up) }
{
    let levels = plan.levels;
    let part = Part {
        levels,
        unit: unit(levels),
    };
    let mut sum = 0.0;
    for level in 0..levels {
        sum = sum + level_height(plan, functions, heights, level, across, up, part);
    }
    sum
}

// Whether the point lies on the mesh, its far edges included.
pub fn on_mesh(plan: Plan, across: u32, up: u32) -> bool
    requires { InRange plan }
    ensures { result ≡ on_mesh plan across up }
{
    let last = plan.levels - 1;
    (across <= plan.columns_at(last) * 8) & (up <= plan.rows_at(last) * 8)
}

// Refusal 14.
fn inexact(plan: Plan) -> bool
    ensures { result ≡ inexact plan }
{
    (2 < plan.degree_across) | ((2 < plan.degree_up) | (4 < plan.levels))
}

// Whether no active height is above 65,536 mm either way.
pub fn all_low(plan: Plan, functions: &[u8], heights: &[i32]) -> bool
    requires in_range { (InRange plan) × (plan.levels ≤ 4) }
    requires functions_len { (length functions.now ≡ function_total plan) × (length heights.now ≡ function_total plan) }
    ensures { result ≡ all_low plan functions.now heights.now }
{
    let mut ok = true;
    for level in 0..plan.levels {
        ok = ok & limits::level_low(plan, functions, heights, level);
    }
    ok
}

// The first refusal of the heights of a mesh, whatever the point, of 3, 14 and 15, if any.
pub fn refusal(plan: Plan, functions: &[u8], heights: &[i32]) -> Result<(), Refusal>
    requires { (InRange plan) × (length functions.now ≡ function_total plan) }
    ensures { number_of result ≡ heights_refusal plan functions.now heights.now }
{
    if heights.len() != plan.function_total() as usize {
        return Err(Refusal::TableLength);
    }
    if inexact(plan) {
        return Err(Refusal::PlanWithoutHeights);
    }
    if !all_low(plan, functions, heights) {
        return Err(Refusal::PointOrHeightOutOfRange);
    }
    Ok(())
}

// The height at a point, or a refusal.
pub fn answer(
    plan: Plan,
    cells: &[u8],
    functions: &[u8],
    heights: &[i32],
    across: u32,
    up: u32,
) -> Result<f64, Refusal>
    ensures { told result ≡ answer plan cells.now functions.now heights.now across up }
{
    tables::check(plan, cells, functions)?;
    refusal(plan, functions, heights)?;
    if !on_mesh(plan, across, up) {
        return Err(Refusal::PointOrHeightOutOfRange);
    }
    Ok(height_at(plan, functions, heights, across, up))
}
