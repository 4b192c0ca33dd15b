// Sums of products, exact as floats: each is a whole number of parts, below 2 ^ 53.
ghost use Rattle.std.specs.Prelude.{◌≡◌, ◌+◌, ◌*◌, ◌≤◌, ◌<◌, pos, nat_abs, ◌*ℤ◌};
ghost use Rattle.exact.specs.Dyadic.{dyadic, Exact};
ghost use Rattle.heights.specs.Heights.{places};
ghost use Rattle.heights.specs.Steps.{Unit, Row, Rows, row_sum, level_sum, most};

use splines::LocalValues;

// One part of a sum on a mesh of so many levels, in millimetres.
#[derive(Clone, Copy)]
pub struct Part {
    pub levels: u32,
    pub unit: f64,
    pub ghost is_unit: { Unit levels unit },
}

// A height times a value, both whole numbers.
fn product(height: i32, value: u32, part: Part) -> f64
    requires value_bound { nat_abs height * value ≤ most }
    ensures { Exact (places part.levels) (height *ℤ pos value) result }
{
    let h = f64::from(height);
    let v = f64::from(value);
    h * (v * part.unit)
}

// What one row of functions adds: `first` is the first over the point, `value` the row's own value.
// Tables are lent whole, with the first function, which the clauses name by its number.
fn row(
    functions: &[u8],
    heights: &[i32],
    first: usize,
    across: LocalValues,
    value: u32,
    part: Part,
) -> f64
    requires row { Row functions.now heights.now first across value }
    ensures { result ≡ dyadic (places part.levels) (row_sum functions.now heights.now first across value) }
{
    let mut sum = 0.0;
    // degree + 1, since ..= would give the proof a second exit
    for j in 0..across.degree + 1 {
        let at = first + j as usize;
        if functions[at] == 1 {
            sum = sum + product(heights[at], across.value(j) * value, part);
        }
    }
    sum
}

// What the rows over a point add, with `width` functions to a row.
pub fn rows(
    functions: &[u8],
    heights: &[i32],
    first: usize,
    width: usize,
    across: LocalValues,
    up: LocalValues,
    part: Part,
) -> f64
    requires rows { Rows functions.now heights.now first width across up }
    ensures { result ≡ dyadic (places part.levels) (level_sum functions.now heights.now first width across up) }
{
    let mut sum = 0.0;
    for i in 0..up.degree + 1 {
        let begin = first + i as usize * width;
        sum = sum + row(functions, heights, begin, across, up.value(i), part);
    }
    sum
}
