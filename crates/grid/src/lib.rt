// A plan's grids: cells and functions of every level, their numbers and places, supports, children and neighbourhoods.
#![tactic(auto)]

ghost use Rattle.std.specs.Prelude.{◌≡◌, ◌+◌, ◌-◌, ◌*◌, ◌≤◌, ◌<◌};
ghost use Rattle.refusals.specs.Numbers.{number_of};
ghost use Rattle.grid.specs.Numbering.{Inside, offset, number, place};
ghost use Rattle.grid.specs.Range.{InRange, Beyond, HasNeighbourhood};
ghost use Rattle.grid.specs.Spans.{support_of, children_of, around, ancestor_of, coarser_span, parents_of, neighbourhood};
ghost use Rattle.grid.specs.Knots.{is_corner, corners_to, knot_on, beyond, functions, first_over};
ghost use Rattle.grid.specs.Side.{SideIn, Run, firsts, passed, columns_before, support_span, around_span};
ghost use Rattle.grid.specs.Plan.{plan_of, numbers_in_range, corners_in_range, in_range, ratio, grown, widened, columns_at, rows_at, across_at, up_at, beyond_across, beyond_up, function_columns_at, function_rows_at, cell_offset, function_offset, cell_total, function_total, too_large, plan_refusal, cell_place, cell_number, function_place, function_number, CellInside, FunctionInside, ancestor};

use refusals::Refusal;

// The most cells that a plan may have, the most functions of such a plan, and the largest table of neighbourhoods: what lent tables need.
pub const MOST_CELLS: usize = 21845;

pub const MOST_FUNCTIONS: usize = 54884;

pub const MOST_NEAR: usize = 13806;

// Document 01, "The plan": six numbers handed over by value. Document 02, Req 05: two more.
#[repr(C)]
#[derive(Clone, Copy, Default)]
pub struct Plan {
    // cells across and up of level 0
    pub columns: u32,
    pub rows: u32,
    pub levels: u32,
    pub degree_across: u32,
    pub degree_up: u32,
    // the admissible class; 0: no condition
    pub class: u32,
    // corners: bit k marks the level 0 line before column (or row) k, where the knot is repeated as often as the degree says
    pub corners_across: u32,
    pub corners_up: u32,
}

// The plan of its eight numbers, in that order; those left out are 0.
pub fn plan_of(numbers: &[u32]) -> Plan
    ensures { result ≡ plan_of numbers.now }
{
    let number = |i: usize| numbers.get(i).copied().unwrap_or(0);
    Plan {
        columns: number(0),
        rows: number(1),
        levels: number(2),
        degree_across: number(3),
        degree_up: number(4),
        class: number(5),
        corners_across: number(6),
        corners_up: number(7),
    }
}

// A cell's number and a function's number: one is never taken for the other.
#[derive(Clone, Copy)]
pub struct Cell(pub u32);

#[derive(Clone, Copy)]
pub struct Function(pub u32);

// Where a cell or a function stands: its level, and its row and column there.
#[derive(Clone, Copy)]
pub struct Place {
    pub level: u32,
    pub row: u32,
    pub column: u32,
}

// Columns (or rows) of one level: from the first up to, not including, the end.
#[derive(Clone, Copy)]
pub struct Span {
    pub first: u32,
    pub end: u32,
}

// Cells of one level.
#[derive(Clone, Copy)]
pub struct Rectangle {
    pub level: u32,
    pub rows: Span,
    pub columns: Span,
}

// One direction of one level: columns (or rows) of cells under functions of a degree.
#[derive(Clone, Copy)]
pub struct Side {
    pub cells: u32,
    pub degree: u32,
    // columns of level 0, and how many of this level stand on one
    pub base: u32,
    pub unit: u32,
    // bit k: the line before column k of level 0 is a corner
    pub corners: u32,
}

// How many corners there are on the level 0 lines 1 to c.
fn corners_to(corners: u32, c: u32) -> u32
    requires { c < 32 }
    ensures { result ≡ corners_to corners c }
{
    u32::count_ones(corners / 2 % (1 << c))
}

// How many functions there are beyond the columns.
fn beyond(degree: u32, corners: u32, base: u32) -> u32
    requires le_degree { (1 ≤ degree) × (degree ≤ 4) }
    requires le_base { (1 ≤ base) × (base ≤ 16) }
    ensures { result ≡ beyond degree corners base }
{
    degree + (degree - 1) * corners_to(corners, base - 1)
}

// What a corner on line z makes of a count of columns.
fn passed(more: u32, z: u32, corner: bool, line: u32) -> u32
    ensures { result ≡ passed more z corner line }
{
    if corner & (z < line) {
        z.max(line.saturating_sub(more))
    } else {
        line
    }
}

// That a side is in order, and a plan in range, stands in the clauses and not in a type: C hands plans over as they come, a type would ask more
// of the callers of functions that docs/ARCHITECTURE.md names, and the definitions make sides of any plan.
impl Side {
    // Line j lies on a corner.
    pub fn is_corner(self, j: u32) -> bool
        requires side_in { SideIn self }
        requires j_le_cells { j ≤ self.cells }
        ensures { result ≡ is_corner self j }
    {
        (j % self.unit == 0) & ((self.corners >> (j / self.unit)) % 2 == 1)
    }

    // How many functions there are.
    pub fn functions(self) -> u32
        requires { SideIn self }
        ensures { result ≡ functions self }
    {
        self.cells + beyond(self.degree, self.corners, self.base)
    }

    // The first function over column x: without corners x itself.
    pub fn first_over(self, x: u32) -> u32
        requires side_in { SideIn self }
        requires x_lt_cells { x < self.cells }
        ensures { result ≡ first_over self x }
    {
        if self.corners == 0 {
            return x;
        }
        x + (self.degree - 1) * corners_to(self.corners, x / self.unit)
    }

    // Where columns end from x on that have no corner between them: within a column of level 0.
    pub fn run_end(self, x: u32) -> u32
        requires side_in { SideIn self }
        requires x_lt_cells { x < self.cells }
        ensures { Run self x result }
    {
        if self.corners == 0 {
            return self.cells;
        }
        (x / self.unit + 1) * self.unit
    }

    // How many functions there are up to the first over the last column.
    pub fn firsts(self) -> u32
        requires { SideIn self }
        ensures { result ≡ firsts self }
    {
        self.functions() - self.degree
    }

    // How many columns have a first function below j.
    fn columns_before(self, j: u32) -> u32
        requires { SideIn self }
        ensures { result ≡ columns_before self j }
    {
        if self.corners == 0 {
            return j;
        }
        let more = self.degree - 1;
        let mut line = j;
        for c in 1..self.base {
            line = passed(more, c * self.unit, (self.corners >> c) % 2 == 1, line);
        }
        line
    }

    // The line of knot i.
    pub fn knot(self, i: u32) -> u32
        requires side_in { SideIn self }
        requires i_bound { i ≤ functions self + self.degree }
        ensures { result ≡ knot_on self i }
    {
        let line = self.columns_before(i.saturating_sub(self.degree));
        self.cells.min(line)
    }

    // The columns that function i covers.
    fn support(self, i: u32) -> Span
        requires side_in { SideIn self }
        requires i_bound { i < functions self }
        ensures { result ≡ support_span self i }
    {
        let first = self.columns_before(i.saturating_sub(self.degree));
        let end = self.columns_before(i + 1);
        Span {
            first,
            end: self.cells.min(end),
        }
    }

    // The columns under a common function with column x.
    fn around(self, x: u32) -> Span
        requires side_in { SideIn self }
        requires x_lt_cells { x < self.cells }
        ensures { result ≡ around_span self x }
    {
        let over = self.first_over(x);
        let first = self.columns_before(over.saturating_sub(self.degree));
        let end = self.columns_before(over + self.degree + 1);
        Span {
            first,
            end: self.cells.min(end),
        }
    }
}

// One direction: no line is marked but those between `count` columns (or rows).
fn corners_in_range(count: u32, corners: u32) -> bool
    requires { count ≤ 16 }
    ensures { result ≡ corners_in_range count corners }
{
    (corners < 1 << count) & (corners % 2 == 0)
}

impl Plan {
    fn numbers_in_range(self) -> bool
        ensures { result ≡ numbers_in_range self }
    {
        (1..=16).contains(&self.columns)
            & (1..=16).contains(&self.rows)
            & (1..=8).contains(&self.levels)
            & (1..=4).contains(&self.degree_across)
            & (1..=4).contains(&self.degree_up)
            & ((self.class == 0) | (2..=8).contains(&self.class))
    }

    // Document 01, refusal 1, is its opposite.
    pub fn in_range(self) -> bool
        ensures { result ≡ in_range self }
    {
        self.numbers_in_range()
            && corners_in_range(self.columns, self.corners_across)
            && corners_in_range(self.rows, self.corners_up)
    }

    // How many columns (or rows) of the next level stand on one. This and the shifts of `grown` and `coarser` are where code knows it.
    pub fn ratio(self) -> u32
        ensures { result ≡ ratio self }
    {
        2
    }

    // How many columns (or rows) `base` of them are some levels down. A level has no more than 2,048.
    pub fn grown(self, base: u32, levels: u32) -> u32
        requires base_bound { base ≤ 2048 }
        requires levels_bound { levels < 8 }
        ensures { result ≡ grown (ratio self) base levels }
    {
        base << levels
    }

    // The same with `more` columns (or rows) than cells.
    fn wide(self, base: u32, more: u32, level: u32) -> u32
        requires base_bound { base ≤ 16 }
        requires more_bound { more ≤ 49 }
        requires level_bound { level < 8 }
        ensures { result ≡ grown (ratio self) base level + more }
    {
        self.grown(base, level) + more
    }

    // Where x, a column (or a row), is some levels up.
    pub fn coarser(self, x: u32, levels: u32) -> u32
        requires { levels < 8 }
        ensures { result ≡ ancestor self levels x }
    {
        x >> levels
    }

    pub fn columns_at(self, level: u32) -> u32
        requires in_range { InRange self }
        requires level_lt_levels { level < self.levels }
        ensures { result ≡ columns_at self level }
    {
        self.grown(self.columns, level)
    }

    pub fn rows_at(self, level: u32) -> u32
        requires in_range { InRange self }
        requires level_lt_levels { level < self.levels }
        ensures { result ≡ rows_at self level }
    {
        self.grown(self.rows, level)
    }

    // How many functions a row, or a column, has beyond its cells, on every level.
    fn beyond_across(self) -> u32
        requires { InRange self }
        ensures { result ≡ beyond_across self }
    {
        beyond(self.degree_across, self.corners_across, self.columns)
    }

    fn beyond_up(self) -> u32
        requires { InRange self }
        ensures { result ≡ beyond_up self }
    {
        beyond(self.degree_up, self.corners_up, self.rows)
    }

    pub fn function_columns_at(self, level: u32) -> u32
        requires in_range { InRange self }
        requires level_lt_levels { level < self.levels }
        ensures { result ≡ function_columns_at self level }
    {
        self.wide(self.columns, self.beyond_across(), level)
    }

    pub fn function_rows_at(self, level: u32) -> u32
        requires in_range { InRange self }
        requires level_lt_levels { level < self.levels }
        ensures { result ≡ function_rows_at self level }
    {
        self.wide(self.rows, self.beyond_up(), level)
    }

    // A level's directions.
    fn side(self, base: u32, degree: u32, corners: u32, level: u32) -> Side
        requires base_bound { base ≤ 2048 }
        requires level_bound { level < 8 }
        ensures cells { result.cells ≡ grown (ratio self) base level }
        ensures unit { result.unit ≡ grown (ratio self) 1 level }
        ensures same { (result.degree ≡ degree) × (result.base ≡ base) × (result.corners ≡ corners) }
    {
        Side {
            cells: self.grown(base, level),
            degree,
            base,
            unit: self.grown(1, level),
            corners,
        }
    }

    pub fn across_at(self, level: u32) -> Side
        requires in_range { InRange self }
        requires level_lt_levels { level < self.levels }
        ensures { result ≡ across_at self level }
    {
        self.side(self.columns, self.degree_across, self.corners_across, level)
    }

    pub fn up_at(self, level: u32) -> Side
        requires in_range { InRange self }
        requires level_lt_levels { level < self.levels }
        ensures { result ≡ up_at self level }
    {
        self.side(self.rows, self.degree_up, self.corners_up, level)
    }

    // Cells and functions are numbered by the same functions: `across` and `up` are how many columns and rows a level has beyond those
    // of cells, 0 for cells.
    fn area(self, across: u32, up: u32, level: u32) -> u32
        requires in_range { InRange self }
        requires beyond { Beyond across up }
        requires level_lt_levels { level < self.levels }
        ensures { result ≡ widened (rows_at self) up level * widened (columns_at self) across level }
    {
        self.wide(self.rows, up, level) * self.wide(self.columns, across, level)
    }

    // Where a level's part of a table begins.
    fn offset(self, across: u32, up: u32, level: u32) -> u32
        requires in_range { InRange self }
        requires beyond { Beyond across up }
        requires level_le_levels { level ≤ self.levels }
        ensures { result ≡ offset (widened (columns_at self) across) (widened (rows_at self) up) level }
    {
        let mut sum = 0;
        for k in 0..level {
            sum += self.area(across, up, k);
        }
        sum
    }

    pub fn cell_offset(self, level: u32) -> u32
        requires in_range { InRange self }
        requires level_le_levels { level ≤ self.levels }
        ensures { result ≡ cell_offset self level }
    {
        self.offset(0, 0, level)
    }

    pub fn function_offset(self, level: u32) -> u32
        requires in_range { InRange self }
        requires level_le_levels { level ≤ self.levels }
        ensures { result ≡ function_offset self level }
    {
        self.offset(self.beyond_across(), self.beyond_up(), level)
    }

    // T and F.
    pub fn cell_total(self) -> u32
        requires { InRange self }
        ensures { result ≡ cell_total self }
    {
        self.cell_offset(self.levels)
    }

    pub fn function_total(self) -> u32
        requires { InRange self }
        ensures { result ≡ function_total self }
    {
        self.function_offset(self.levels)
    }

    // Document 01, refusal 2.
    pub fn too_large(self) -> bool
        requires { InRange self }
        ensures { result ≡ too_large self }
    {
        self.cell_total() as usize > MOST_CELLS
    }

    // The first of document 01's refusals 1 and 2, if any.
    pub fn refusal(self) -> Result<(), Refusal>
        ensures { number_of result ≡ plan_refusal self }
    {
        if !self.in_range() {
            return Err(Refusal::PlanOutOfRange);
        }
        if self.too_large() {
            return Err(Refusal::TooManyCells);
        }
        Ok(())
    }

    // The place of a number. Each level passed takes its area off the number.
    fn place_of(self, across: u32, up: u32, number: u32) -> Place
        requires in_range { InRange self }
        requires beyond { Beyond across up }
        requires number_bound { number < offset (widened (columns_at self) across) (widened (rows_at self) up) self.levels }
        ensures { result ≡ place (widened (columns_at self) across) (widened (rows_at self) up) self.levels number }
    {
        let mut rest = number;
        for level in 0..self.levels {
            let area = self.area(across, up, level);
            if rest < area {
                let columns = self.wide(self.columns, across, level);
                return Place {
                    level,
                    row: rest / columns,
                    column: rest % columns,
                };
            }
            rest -= area;
        }
        unreachable!()
    }

    // The number of a place.
    fn number_of(self, across: u32, up: u32, place: Place) -> u32
        requires in_range { InRange self }
        requires beyond { Beyond across up }
        requires inside { Inside (widened (columns_at self) across) (widened (rows_at self) up) self.levels place }
        ensures { result ≡ number (widened (columns_at self) across) (widened (rows_at self) up) place }
    {
        let columns = self.wide(self.columns, across, place.level);
        self.offset(across, up, place.level) + place.row * columns + place.column
    }

    pub fn cell_place(self, cell: Cell) -> Place
        requires in_range { InRange self }
        requires cell_bound { cell.0 < cell_total self }
        ensures { result ≡ cell_place self cell.0 }
    {
        self.place_of(0, 0, cell.0)
    }

    pub fn cell_number(self, place: Place) -> Cell
        requires in_range { InRange self }
        requires cell_inside { CellInside self place }
        ensures { result.0 ≡ cell_number self place }
    {
        Cell(self.number_of(0, 0, place))
    }

    pub fn function_place(self, function: Function) -> Place
        requires in_range { InRange self }
        requires function_bound { function.0 < function_total self }
        ensures { result ≡ function_place self function.0 }
    {
        self.place_of(self.beyond_across(), self.beyond_up(), function.0)
    }

    pub fn function_number(self, place: Place) -> Function
        requires in_range { InRange self }
        requires function_inside { FunctionInside self place }
        ensures { result.0 ≡ function_number self place }
    {
        Function(self.number_of(self.beyond_across(), self.beyond_up(), place))
    }

    // The support of the function at a place.
    pub fn support_of(self, place: Place) -> Rectangle
        requires in_range { InRange self }
        requires function_inside { FunctionInside self place }
        ensures { result ≡ support_of self place }
    {
        Rectangle {
            level: place.level,
            rows: self.up_at(place.level).support(place.row),
            columns: self.across_at(place.level).support(place.column),
        }
    }

    // The children of the cell at a place.
    pub fn children(self, place: Place) -> Rectangle
        requires in_range { InRange self }
        requires cell_inside { CellInside self place }
        ensures { result ≡ children_of self place }
    {
        let ratio = self.ratio();
        let row = place.row * ratio;
        let column = place.column * ratio;
        Rectangle {
            level: place.level + 1,
            rows: Span {
                first: row,
                end: row + ratio,
            },
            columns: Span {
                first: column,
                end: column + ratio,
            },
        }
    }

    // The cells of a cell's own level that a function covers together with it.
    pub fn around(self, place: Place) -> Rectangle
        requires in_range { InRange self }
        requires cell_inside { CellInside self place }
        ensures { result ≡ around self place }
    {
        Rectangle {
            level: place.level,
            rows: self.up_at(place.level).around(place.row),
            columns: self.across_at(place.level).around(place.column),
        }
    }

    // The ancestor, one level below the neighbourhood, around which the children lie that make a cell's neighbourhood.
    pub fn ancestor_of(self, place: Place) -> Place
        requires in_range { InRange self }
        requires has_neighbourhood { HasNeighbourhood self place.level }
        ensures { result ≡ ancestor_of self place }
    {
        let back = self.class - 2;
        Place {
            level: place.level - back,
            row: self.coarser(place.row, back),
            column: self.coarser(place.column, back),
        }
    }

    // The columns (or rows) one level up on which those of a span stand.
    fn coarser_span(self, span: Span) -> Span
        requires { 1 ≤ span.end }
        ensures { result ≡ coarser_span (ratio self) span }
    {
        Span {
            first: self.coarser(span.first, 1),
            end: self.coarser(span.end - 1, 1) + 1,
        }
    }

    // The parents of a rectangle's cells.
    fn parents_of(self, rectangle: Rectangle) -> Rectangle
        requires { (1 ≤ rectangle.level) × (1 ≤ rectangle.rows.end) × (1 ≤ rectangle.columns.end) }
        ensures { result ≡ parents_of self rectangle }
    {
        Rectangle {
            level: rectangle.level - 1,
            rows: self.coarser_span(rectangle.rows),
            columns: self.coarser_span(rectangle.columns),
        }
    }

    // The cells on which those stand that are near the cell at a place.
    fn parents_around(self, place: Place) -> Rectangle
        requires in_range { InRange self }
        requires cell_inside { CellInside self place }
        requires le_level { 1 ≤ place.level }
        ensures { result ≡ parents_of self (around self place) }
    {
        self.parents_of(self.around(place))
    }

    // The neighbourhood of the cell at a place.
    pub fn neighbourhood(self, place: Place) -> Rectangle
        requires in_range { InRange self }
        requires cell_inside { CellInside self place }
        requires has_neighbourhood { HasNeighbourhood self place.level }
        ensures { result ≡ neighbourhood self place }
    {
        self.parents_around(self.ancestor_of(place))
    }
}
