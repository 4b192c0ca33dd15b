// Values of B-splines of degrees 1 and 2 in one direction of one level, as whole numbers. Only the functions over the point's cell have any.
#![tactic(auto)]

ghost use Rattle.std.specs.Prelude.{◌≡◌, ◌≤◌};
ghost use Rattle.grid.specs.Knots.{times};
ghost use Rattle.grid.specs.Side.{SideIn};
ghost use Rattle.splines.specs.Values.{cell_of};
ghost use Rattle.splines.specs.Local.{outer, local_of, piece_of};
ghost use Rattle.splines.specs.Claims.{OnSide};
ghost use Rattle.splines.specs.Room.{InRoom};

use grid::Side;

// Where a point lies: its cell, and the values there of the functions over it, the first, the one between (of degree 2), the last.
// Like the struct Children of crate twoscale, but its functions are counted from the first.
#[derive(Clone, Copy)]
pub struct LocalValues {
    pub degree: u32,
    pub cell: u32,
    pub low: u32,
    pub middle: u32,
    pub high: u32,
}

impl LocalValues {
    // The value of function j of those over the cell, counted from the first.
    pub fn value(self, j: u32) -> u32
        ensures { result ≡ piece_of self j }
    {
        if j == 0 {
            self.low
        } else if j == self.degree {
            self.high
        } else {
            self.middle
        }
    }
}

// The cell that holds the point x, of which `parts` make a cell: on the far edge the last.
fn cell_of(parts: u32, cells: u32, x: u32) -> u32
    requires { (1 ≤ parts) × (1 ≤ cells) }
    ensures { result ≡ cell_of parts cells x }
{
    (x / parts).min(cells - 1)
}

// How often the knot on line j is taken.
fn times(side: Side, j: u32) -> u32
    requires side_in { SideIn side }
    requires j_le_cells { j ≤ side.cells }
    ensures { result ≡ times side j }
{
    if (j == 0) | (j == side.cells) {
        side.degree + 1
    } else if side.is_corner(j) {
        side.degree
    } else {
        1
    }
}

// The first of the functions over a cell, or the last: v parts lie between the point and the line where it ends. `full`: the knot on the
// cell's other line is taken more than once.
fn outer(degree: u32, full: bool, parts: u32, v: u32) -> u32
    requires { (v ≤ parts) × (parts ≤ 64) }
    ensures { result ≡ outer degree full parts v }
{
    if degree == 1 {
        2 * parts * v
    } else if full {
        2 * (v * v)
    } else {
        v * v
    }
}

// Where the point x lies, of which `parts` make a cell.
pub fn locate(side: Side, parts: u32, x: u32) -> LocalValues
    requires on_side { OnSide side parts x }
    requires in_room { InRoom side parts }
    ensures { result ≡ local_of side parts x }
{
    let cell = cell_of(parts, side.cells, x);
    let before = x - cell * parts;
    let low = outer(side.degree, 1 < times(side, cell), parts, parts - before);
    let high = outer(side.degree, 1 < times(side, cell + 1), parts, before);
    LocalValues {
        degree: side.degree,
        cell,
        low,
        middle: 2 * parts * parts - low - high,
        high,
    }
}
