// Heights of at most 65,536 mm either way, in the units of their level.
ghost use Rattle.std.specs.Prelude.{◌≡◌, ◌-◌, ◌*◌, ◌^◌, ◌≤◌, ◌<◌, length};
ghost use Rattle.facts.specs.Ranges.{every_from};
ghost use Rattle.grid.specs.Plan.{function_columns_at, function_rows_at, function_offset, function_total};
ghost use Rattle.grid.specs.Range.{InRange};
ghost use Rattle.heights.specs.Heights.{low_on, low_at};

use grid::Plan;

// The most that a height of a level may be, either way.
fn most_of(level: u32) -> u32
    requires { level < 4 }
    ensures { result ≡ 65536 * 16 ^ level }
{
    65536 << (4 * level)
}

// The functions from `from` to `to`, all of one level: those that are active have low heights.
fn run_low(functions: &[u8], heights: &[i32], from: usize, to: usize, level: u32) -> bool
    requires level_bound { level < 4 }
    requires from_le_to { (from ≤ to) × (to ≤ length functions.now) × (to ≤ length heights.now) }
    ensures { result ≡ every_from from (to - from) (low_on level functions.now heights.now) }
{
    let most = most_of(level);
    let mut ok = true;
    // by index, since two slices go side by side
    for i in from..to {
        ok = ok & ((functions[i] != 1) | (heights[i].unsigned_abs() <= most));
    }
    ok
}

// The same of all functions of a level.
pub fn level_low(plan: Plan, functions: &[u8], heights: &[i32], level: u32) -> bool
    requires in_range { (InRange plan) × (plan.levels ≤ 4) × (level < plan.levels) }
    requires functions_len { (length functions.now ≡ function_total plan) × (length heights.now ≡ function_total plan) }
    ensures { result ≡ every_from (function_offset plan level) (function_rows_at plan level * function_columns_at plan level) (low_at plan functions.now heights.now) }
{
    let from = plan.function_offset(level) as usize;
    let to = plan.function_offset(level + 1) as usize;
    run_low(functions, heights, from, to, level)
}
