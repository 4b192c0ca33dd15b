// The wall in hand.
ghost use Rattle.std.specs.Prelude.{◌≡◌, ◌≤◌};
ghost use Rattle.grid.specs.Plan.{cell_total, function_total};
ghost use Rattle.script.specs.Bounds.{wall_cells, wall_functions};

use grid::Plan;

// A wall that was opened, and the lengths of its tables: they are its plan's, and no larger than a session's walls have them.
#[derive(Clone, Copy)]
pub struct Hand {
    pub plan: Plan,
    pub cells: usize,
    pub functions: usize,
    pub ghost all_cells: { cells ≡ cell_total plan },
    pub ghost all_functions: { functions ≡ function_total plan },
    pub ghost cells_bound: { cells ≤ wall_cells },
    pub ghost functions_bound: { functions ≤ wall_functions },
}
