// What a plan alone decides: how long its tables are, where a level stands in them, where a cell lies and what a function covers. Any plan
// and any numbers are taken; an answer is all zeros where there is none.
#![tactic(auto)]

ghost use Rattle.std.specs.Prelude.{◌≡◌};
ghost use Rattle.layout.specs.Layout.{answered, cells_length, functions_length, has_level, level_at, place_of, has_place, cell_at, support};

use grid::{Cell, Function, Place, Plan, Rectangle};

// Where a level's cells and functions stand in their tables, and how many there are across and up.
// All zeros and no None, as C reads it.
#[repr(C)]
#[derive(Clone, Copy, Default)]
pub struct Level {
    pub first_cell: u32,
    pub columns: u32,
    pub rows: u32,
    pub first_function: u32,
    pub functions_across: u32,
    pub functions_up: u32,
}

// Where a cell lies. `found` is 1, or 0 where there is no such cell: a flag and no Option here and below, since C reads these.
#[repr(C)]
#[derive(Clone, Copy, Default)]
pub struct CellPlace {
    pub found: u32,
    pub level: u32,
    pub row: u32,
    pub column: u32,
}

impl From<Place> for CellPlace {
    ghost from_gives = { λ x answer. answer ≡ record { found = 1; level = x.level; row = x.row; column = x.column } };

    fn from(place: Place) -> CellPlace {
        CellPlace {
            found: 1,
            level: place.level,
            row: place.row,
            column: place.column,
        }
    }
}

// The cell at a place.
#[repr(C)]
#[derive(Clone, Copy, Default)]
pub struct CellAt {
    pub found: u32,
    pub cell: u32,
}

impl From<Cell> for CellAt {
    ghost from_gives = { λ c answer. answer ≡ record { found = 1; cell = c.0 } };

    fn from(cell: Cell) -> CellAt {
        CellAt {
            found: 1,
            cell: cell.0,
        }
    }
}

// The cells that a function covers: those of its level from the first row and column up to, not including, the end.
#[repr(C)]
#[derive(Clone, Copy, Default)]
pub struct Support {
    pub found: u32,
    pub level: u32,
    pub first_row: u32,
    pub end_row: u32,
    pub first_column: u32,
    pub end_column: u32,
}

impl From<Rectangle> for Support {
    ghost from_gives = { λ r answer. answer ≡ answered r };

    fn from(cover: Rectangle) -> Support {
        Support {
            found: 1,
            level: cover.level,
            first_row: cover.rows.first,
            end_row: cover.rows.end,
            first_column: cover.columns.first,
            end_column: cover.columns.end,
        }
    }
}

// T, the length of the cell table.
// 0 and no None for a refused plan, here and below, as C reads it; and a match, no longer than map_or.
pub fn cells_len(plan: Plan) -> usize
    ensures { result ≡ cells_length plan }
{
    match plan.refusal() {
        Ok(()) => plan.cell_total() as usize,
        Err(_) => 0,
    }
}

// F, the length of the function table.
pub fn functions_len(plan: Plan) -> usize
    ensures { result ≡ functions_length plan }
{
    match plan.refusal() {
        Ok(()) => plan.function_total() as usize,
        Err(_) => 0,
    }
}

fn has_level(plan: Plan, level: u32) -> bool
    ensures { result ≡ has_level plan level }
{
    match plan.refusal() {
        Ok(()) => level < plan.levels,
        Err(_) => false,
    }
}

pub fn level_at(plan: Plan, level: u32) -> Level
    ensures { result ≡ level_at plan level }
{
    if has_level(plan, level) {
        Level {
            first_cell: plan.cell_offset(level),
            columns: plan.columns_at(level),
            rows: plan.rows_at(level),
            first_function: plan.function_offset(level),
            functions_across: plan.function_columns_at(level),
            functions_up: plan.function_rows_at(level),
        }
    } else {
        Level::default()
    }
}

pub fn place_of(plan: Plan, cell: u32) -> CellPlace
    ensures { result ≡ place_of plan cell }
{
    if (cell as usize) < cells_len(plan) {
        plan.cell_place(Cell(cell)).into()
    } else {
        CellPlace::default()
    }
}

// The plan has a cell at the place.
fn has_place(plan: Plan, place: Place) -> bool
    ensures { result ≡ has_place plan place }
{
    has_level(plan, place.level)
        && place.row < plan.rows_at(place.level)
        && place.column < plan.columns_at(place.level)
}

pub fn cell_at(plan: Plan, place: Place) -> CellAt
    ensures { result ≡ cell_at plan place }
{
    if has_place(plan, place) {
        plan.cell_number(place).into()
    } else {
        CellAt::default()
    }
}

pub fn support_of(plan: Plan, function: u32) -> Support
    ensures { result ≡ support plan function }
{
    if (function as usize) < functions_len(plan) {
        plan.support_of(plan.function_place(Function(function)))
            .into()
    } else {
        Support::default()
    }
}
