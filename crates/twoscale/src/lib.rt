// The two-scale relation in one direction: which functions of the next level a function is the sum of, and how much of each is in it, in
// quarters. Degrees 1 and 2.
#![tactic(auto)]

ghost use Rattle.std.specs.Prelude.{cond, ◌≡◌, ◌/◌, ◌^◌, ◌≤◌, ◌<◌, eqb};
ghost use Rattle.grid.specs.Knots.{functions};
ghost use Rattle.grid.specs.Side.{SideIn};
ghost use Rattle.twoscale.specs.Passing.{children_of, quarters_of};

use grid::Side;

// The children of a function, from the first to the last, and the quarters of the first, of those between and of the last.
#[derive(Clone, Copy)]
pub struct Children {
    pub first: u32,
    pub last: u32,
    pub low: u32,
    pub middle: u32,
    pub high: u32,
}

impl Children {
    // The quarters of function j of the next level.
    pub fn quarters(self, j: u32) -> u32
        requires { (self.first ≤ j) × (j ≤ self.last) }
        ensures { result ≡ quarters_of self j }
    {
        if j == self.first {
            self.low
        } else if j == self.last {
            self.high
        } else {
            self.middle
        }
    }
}

// A quarter, two or all four, by how many lines there are between two knots.
fn end_quarters(lines: u32) -> u32
    requires { lines ≤ 2 }
    ensures { result ≡ 4 / 2 ^ lines }
{
    4 >> lines
}

// Of a child between the first and the last: all four where the function's second knot and its last but one lie on one line, else three.
fn middle_quarters(second: u32, last_but_one: u32) -> u32
    ensures { result ≡ cond (eqb second last_but_one) 4 3 }
{
    if second == last_but_one { 4 } else { 3 }
}

// The children of function i.
pub fn children_of(side: Side, i: u32) -> Children
    requires side_in { (SideIn side) × (side.degree ≤ 2) }
    requires i_bound { i < functions side }
    ensures { result ≡ children_of side i }
{
    let first = side.knot(i);
    let second = side.knot(i + 1);
    let last_but_one = side.knot(i + side.degree);
    let last = side.knot(i + side.degree + 1);
    Children {
        first: i + first,
        last: i + last,
        low: end_quarters(last_but_one - first),
        middle: middle_quarters(second, last_but_one),
        high: end_quarters(last - second),
    }
}
