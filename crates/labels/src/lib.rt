// The function table that the cells fix, and refusal 6. A label is the smallest byte of the function's support: all labels of a level are
// made at once, as windows of its cells.
// That the cells are a mesh stands in the clauses, here and in other crates: a type for it could not stand in `write_labels`, which
// docs/ARCHITECTURE.md names and which may not ask more, and elsewhere it would take the place of a clause or two.
#![tactic(auto)]

ghost use Rattle.std.specs.Prelude.{◌≡◌, ◌+◌, ◌≤◌, ◌<◌, length};
ghost use Rattle.facts.specs.Ranges.{Written};
ghost use Rattle.grid.specs.Plan.{function_offset, cell_total, function_total};
ghost use Rattle.mesh.specs.Mesh.{label_of, labels, is_labelled};
ghost use Rattle.nesting.specs.Table.{MeshTable};
ghost use Rattle.grid.specs.Bounds.{most_cells};

use grid::{MOST_FUNCTIONS, Plan};

// Writes the labels of a level into its part of the table.
fn write_level(plan: Plan, cells: &[u8], out: &mut [u8], scratch: &mut [u8], level: u32)
    requires mesh_table { MeshTable plan cells.now }
    requires out_len { (length out.old ≡ function_total plan) × (function_total plan ≤ length scratch.old) }
    requires level_lt_levels { level < plan.levels }
    ensures { Written out.old out.new (function_offset plan level) (function_offset plan (level + 1)) (label_of plan cells.now) }
{
    let across = plan.degree_across as usize;
    let up = plan.degree_up as usize;
    let offset = plan.function_offset(level) as usize;
    windows::level(plan, cells, level, scratch, &mut out[offset..], across, up);
}

fn write_levels(plan: Plan, cells: &[u8], out: &mut [u8], scratch: &mut [u8])
    requires mesh_table { MeshTable plan cells.now }
    requires out_len { (length out.old ≡ function_total plan) × (function_total plan ≤ length scratch.old) }
    ensures { out.new ≡ labels plan cells.now }
{
    for level in 0..plan.levels {
        write_level(plan, cells, out, scratch, level);
    }
}

// Writes the function table that the cells fix.
pub fn write_labels(plan: Plan, cells: &[u8], out: &mut [u8])
    requires mesh_table { MeshTable plan cells.now }
    requires out_len { (length out.old ≡ function_total plan) × (cell_total plan ≤ most_cells) }
    ensures { out.new ≡ labels plan cells.now }
{
    let count = plan.function_total() as usize;
    // no heap: room of the largest size, of which the front is used
    let mut scratch = [0u8; MOST_FUNCTIONS];
    write_levels(plan, cells, out, &mut scratch[..count]);
}

// The labels are made and compared.
fn labelled(plan: Plan, cells: &[u8], functions: &[u8], made: &mut [u8]) -> bool
    requires mesh_table { MeshTable plan cells.now }
    requires functions_len { (length functions.now ≡ function_total plan) × (length made.old ≡ function_total plan) × (cell_total plan ≤ most_cells) }
    ensures { result ≡ is_labelled plan cells.now functions.now }
{
    write_labels(plan, cells, made);
    compare::same(functions, made, 0, functions.len())
}

// Refusal 6 is its opposite.
pub fn is_labelled(plan: Plan, cells: &[u8], functions: &[u8]) -> bool
    requires mesh_table { MeshTable plan cells.now }
    requires functions_len { (length functions.now ≡ function_total plan) × (cell_total plan ≤ most_cells) }
    ensures { result ≡ is_labelled plan cells.now functions.now }
{
    let count = plan.function_total() as usize;
    // no heap: room of the largest size, of which the front is used
    let mut made = [0u8; MOST_FUNCTIONS];
    labelled(plan, cells, functions, &mut made[..count])
}
