// Refusal 5: the mesh is admissible. The least bytes of neighbourhoods are found for a level at once, and read for its refined cells.
#![tactic(auto)]

ghost use Rattle.std.specs.Prelude.{◌≡◌, ◌+◌, ◌*◌, ◌≤◌, ◌<◌, length};
ghost use Rattle.facts.specs.Ranges.{every_from};
ghost use Rattle.grid.specs.Plan.{columns_at, rows_at, cell_offset, cell_total};
ghost use Rattle.grid.specs.Bounds.{most_cells};
ghost use Rattle.mesh.specs.Mesh.{is_admissible};
ghost use Rattle.nesting.specs.Table.{MeshTable};
ghost use Rattle.windows.specs.Level.{NearRoom};
ghost use Rattle.windows.specs.Near.{NearTable};
ghost use Rattle.admissible.specs.Admissible.{cell_admissible};

use grid::{MOST_NEAR, Place, Plan};

// The cells of a row, the first of which is `at`: each is not refined, or its neighbourhood is, by the table of the level.
fn row_admissible(plan: Plan, cells: &[u8], near: &[u8], level: u32, row: u32, at: usize) -> bool
    requires mesh_table { MeshTable plan cells.now }
    requires near_room { (NearRoom plan (length near.now)) × (NearTable plan cells.now near.now level) }
    requires level_bound { (level + 1 < plan.levels) × (row < rows_at plan level) }
    requires at_value { at ≡ cell_offset plan level + row * columns_at plan level }
    ensures { result ≡ every_from at (columns_at plan level) (cell_admissible plan cells.now) }
{
    let columns = plan.columns_at(level);
    let mut ok = true;
    for column in 0..columns {
        let n = at + column as usize;
        let least = windows::least_near(plan, near, Place { level, row, column });
        ok &= (cells[n] != 2) | (least == 2);
    }
    ok
}

// The cells of a level. `near` and `scratch` are room for the table of its neighbourhoods.
fn level_admissible(
    plan: Plan,
    cells: &[u8],
    near: &mut [u8],
    scratch: &mut [u8],
    level: u32,
) -> bool
    requires mesh_table { MeshTable plan cells.now }
    requires near_room { (NearRoom plan (length near.old)) × (NearRoom plan (length scratch.old)) }
    requires level_bound { level + 1 < plan.levels }
    ensures { result ≡ every_from (cell_offset plan level) (rows_at plan level * columns_at plan level) (cell_admissible plan cells.now) }
{
    windows::neighbourhoods(plan, cells, level, scratch, near);
    let columns = plan.columns_at(level) as usize;
    let rows = plan.rows_at(level);
    // the place is added up and not multiplied
    let mut at = plan.cell_offset(level) as usize;
    let mut ok = true;
    for row in 0..rows {
        ok &= row_admissible(plan, cells, near, level, row, at);
        at += columns;
    }
    ok
}

// The levels but for the last, in which no cell of a mesh is refined.
fn levels_admissible(plan: Plan, cells: &[u8], near: &mut [u8], scratch: &mut [u8]) -> bool
    requires mesh_table { MeshTable plan cells.now }
    requires near_room { (NearRoom plan (length near.old)) × (NearRoom plan (length scratch.old)) }
    ensures { result ≡ is_admissible plan cells.now }
{
    let mut ok = true;
    for level in 0..plan.levels - 1 {
        ok &= level_admissible(plan, cells, near, scratch, level);
    }
    ok
}

// The mesh, in rooms of the function's own.
fn mesh_admissible(plan: Plan, cells: &[u8]) -> bool
    requires { (MeshTable plan cells.now) × (cell_total plan ≤ most_cells) }
    ensures { result ≡ is_admissible plan cells.now }
{
    // no heap: rooms of the largest size
    let mut near = [0u8; MOST_NEAR];
    let mut scratch = [0u8; MOST_NEAR];
    levels_admissible(plan, cells, &mut near, &mut scratch)
}

// Refusal 5 is its opposite. In class 0 every mesh is admissible, and no room is made.
pub fn is_admissible(plan: Plan, cells: &[u8]) -> bool
    requires { (MeshTable plan cells.now) × (cell_total plan ≤ most_cells) }
    ensures { result ≡ is_admissible plan cells.now }
{
    if plan.class == 0 {
        true
    } else {
        mesh_admissible(plan, cells)
    }
}
