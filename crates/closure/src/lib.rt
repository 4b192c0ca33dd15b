// From a cell table to the smallest admissible mesh around a base set: the closure under neighbourhoods, in code.
#![tactic(auto)]

ghost use Rattle.std.specs.Prelude.{◌≡◌, ℕ, ◌+◌, ◌*◌, ◌<◌, ◌≤◌, length};
ghost use Rattle.grid.specs.Plan.{columns_at, rows_at, cell_offset, cell_total, cell_number, CellInside};
ghost use Rattle.windows.specs.Level.{NearRoom};
ghost use Rattle.outcomes.specs.Calls.{refine, coarsen, base, smallest};
ghost use Rattle.closure.specs.Walk.{Block, fill_block, write_cell, walk_near, refine_cell, flagged, told, close_cell, visit, over_row, over, level_cells, pass};
ghost use Rattle.closure.specs.Ready.{TableSize, Ready};

use grid::{Cell, MOST_NEAR, Place, Plan, Rectangle};

// What a pass does at each cell. An enum and no closure: the definitions of specs/Walk.antt are by cases on it.
#[derive(Clone, Copy)]
enum Pass {
    // a flagged cell is refined with all that it needs
    Refine,
    // a flagged cell is made active again
    Activate,
    // the neighbourhood of a refined cell is refined with all that it needs
    Close,
}

// Sets the bytes of a rectangle of cells, in the part of the table that begins at their level's offset and has `width` cells to a row.
fn fill_cells(part: &mut [u8], width: usize, r: Rectangle, value: u8)
    requires { Block r width (length part.old) }
    ensures { part.new ≡ fill_block r.rows r.columns width value part.old }
{
    let first = r.columns.first as usize;
    let count = r.columns.end as usize - first;
    for row in r.rows.first..r.rows.end {
        let at = row as usize * width + first;
        windows::fill(&mut part[at..], count, value);
    }
}

// A plan and its cell table.
#[derive(Drop)]
struct Table<'a> {
    plan: Plan,
    cells: &'a mut [u8],
    ghost size: { TableSize plan (length cells.now) },
}

impl Table<'_> {
    ghost use Rattle.closure.specs.Table.{Becomes};

    // Sets the byte of the cell at a place, and one less at its children: 2 refines it, 1 makes it active again.
    // A cell's number goes with its place, since finding it anew would take a sum over levels in the inner loop.
    fn write_cell(&mut self, cell: Cell, place: Place, value: u8)
        requires cell_inside { CellInside self.old.plan place }
        requires cell_value { cell.0 ≡ cell_number self.old.plan place }
        requires level_bound { place.level + 1 < self.old.plan.levels }
        requires le_value { 1 ≤ value }
        ensures { Becomes self.old self.new (λ p. write_cell p value place) }
    {
        let number = cell.0 as usize;
        self.cells[number] = value;
        let children = self.plan.children(place);
        let level = children.level;
        let offset = self.plan.cell_offset(level) as usize;
        let width = self.plan.columns_at(level) as usize;
        fill_cells(&mut self.cells[offset..], width, children, value - 1);
    }

    // Refines the cell at a place, after its neighbourhood.
    #[cycle(refine_cell_refine_neighbourhood)]
    fn refine_cell(&mut self, cell: Cell, place: Place)
        requires cell_inside { CellInside self.old.plan place }
        requires cell_value { cell.0 ≡ cell_number self.old.plan place }
        requires level_bound { place.level + 1 < self.old.plan.levels }
        ensures { (n : ℕ) → place.level < n → Becomes self.old self.new (λ p. refine_cell n p place) }
    {
        let number = cell.0 as usize;
        if self.cells[number] == 2 {
            return;
        }
        self.refine_neighbourhood(place);
        self.write_cell(cell, place, 2);
    }

    // Refines the neighbourhood of the cell at a place, where it has one: each of its cells after its own.
    #[cycle(refine_cell_refine_neighbourhood)]
    fn refine_neighbourhood(&mut self, place: Place)
        requires cell_inside { CellInside self.old.plan place }
        requires level_bound { place.level + 1 < self.old.plan.levels }
        ensures { (n : ℕ) → place.level ≤ n → Becomes self.old self.new (λ p. walk_near (refine_cell n p) p place) }
    {
        let class = self.plan.class;
        let level = place.level;
        if class == 0 {
            return;
        }
        if level + 1 < class {
            return;
        }
        let near = self.plan.neighbourhood(place);
        let coarse = near.level;
        let offset = self.plan.cell_offset(coarse);
        let width = self.plan.columns_at(coarse);
        for row in near.rows.first..near.rows.end {
            for column in near.columns.first..near.columns.end {
                let number = offset + (row * width + column);
                self.refine_cell(
                    Cell(number),
                    Place {
                        level: coarse,
                        row,
                        column,
                    },
                );
            }
        }
    }

    // Refines the neighbourhood of the cell at a place, unless the table that was made when its level was entered has it refined.
    fn close_cell(&mut self, near: &[u8], place: Place)
        requires near_room { NearRoom self.old.plan (length near.now) }
        requires cell_inside { CellInside self.old.plan place }
        requires level_bound { place.level + 1 < self.old.plan.levels }
        ensures { Becomes self.old self.new (λ p. close_cell (told p near.now) p place) }
    {
        if windows::least_near(self.plan, near, place) == 2 {
            return;
        }
        self.refine_neighbourhood(place);
    }

    // What a pass does at a cell.
    // The flags and the table of neighbourhoods are no part of the table of cells: the one is only read, the other made anew for each
    // level.
    fn visit(&mut self, flags: &[u8], near: &[u8], step: Pass, cell: Cell, place: Place)
        requires flags_len { (length flags.now ≡ cell_total self.old.plan) × (NearRoom self.old.plan (length near.now)) }
        requires cell_inside { CellInside self.old.plan place }
        requires cell_value { cell.0 ≡ cell_number self.old.plan place }
        requires level_bound { place.level + 1 < self.old.plan.levels }
        ensures { Becomes self.old self.new (λ p. visit step p flags.now (told p near.now) place) }
    {
        let c = cell.0 as usize;
        match step {
            Pass::Refine => {
                if flags[c] == 1 {
                    if self.cells[c] != 2 {
                        self.close_cell(near, place);
                        self.write_cell(cell, place, 2);
                    }
                }
            }
            Pass::Activate => {
                if flags[c] == 1 {
                    self.write_cell(cell, place, 1);
                }
            }
            Pass::Close => {
                if self.cells[c] == 2 {
                    self.close_cell(near, place);
                }
            }
        }
    }

    // A row of a level, the first cell of which is `first`.
    fn run_row(&mut self, flags: &[u8], near: &[u8], step: Pass, level: u32, row: u32, first: u32)
        requires flags_len { (length flags.now ≡ cell_total self.old.plan) × (NearRoom self.old.plan (length near.now)) }
        requires level_bound { (level + 1 < self.old.plan.levels) × (row < rows_at self.old.plan level) }
        requires first_value { first ≡ cell_offset self.old.plan level + row * columns_at self.old.plan level }
        ensures { Becomes self.old self.new (λ p. over_row (visit step p flags.now (told p near.now)) level row (level_cells p level).columns) }
    {
        for column in 0..self.plan.columns_at(level) {
            self.visit(
                flags,
                near,
                step,
                Cell(first + column),
                Place { level, row, column },
            );
        }
    }

    // The rows of a level, by the table of its neighbourhoods.
    fn run_level(&mut self, flags: &[u8], near: &[u8], step: Pass, level: u32)
        requires flags_len { (length flags.now ≡ cell_total self.old.plan) × (NearRoom self.old.plan (length near.now)) }
        requires level_bound { level + 1 < self.old.plan.levels }
        ensures { Becomes self.old self.new (λ p. over (visit step p flags.now (told p near.now)) (level_cells p level)) }
    {
        let columns = self.plan.columns_at(level);
        let rows = self.plan.rows_at(level);
        let mut first = self.plan.cell_offset(level);
        for row in 0..rows {
            self.run_row(flags, near, step, level, row, first);
            first += columns;
        }
    }

    // The levels but for the last. The table of a level's neighbourhoods is made when it is entered: what is refined then stays refined.
    fn run_levels(&mut self, flags: &[u8], near: &mut [u8], scratch: &mut [u8], step: Pass)
        requires flags_len { length flags.now ≡ cell_total self.old.plan }
        requires near_room { (NearRoom self.old.plan (length near.old)) × (NearRoom self.old.plan (length scratch.old)) }
        ensures { Becomes self.old self.new (λ p. pass step p flags.now) }
    {
        for level in 0..self.plan.levels - 1 {
            // of a field that is lent as `&` a proof knows no cell afterwards
            let cells = &mut *self.cells;
            windows::neighbourhoods(self.plan, cells, level, scratch, near);
            self.run_level(flags, near, step, level);
        }
    }

    // One pass, with room for the tables of neighbourhoods.
    fn run(&mut self, flags: &[u8], step: Pass)
        requires { length flags.now ≡ cell_total self.old.plan }
        ensures { Becomes self.old self.new (λ p. pass step p flags.now) }
    {
        // no heap: rooms of the largest size
        let mut near = [0u8; MOST_NEAR];
        let mut scratch = [0u8; MOST_NEAR];
        self.run_levels(flags, &mut near, &mut scratch, step);
    }
}

// Refines the cells with the flag 1, and all that the new mesh needs.
pub fn refine_marked(plan: Plan, cells: &mut [u8], flags: &[u8])
    requires { Ready refine plan cells.old flags.now }
    ensures { cells.new ≡ smallest plan (base refine cells.old (flagged flags.now)) }
{
    let mut table = Table { plan, cells };
    table.run(flags, Pass::Refine);
}

// Coarsens the cells with the flag 1, but for those that the others need.
pub fn coarsen_marked(plan: Plan, cells: &mut [u8], flags: &[u8])
    requires { Ready coarsen plan cells.old flags.now }
    ensures { cells.new ≡ smallest plan (base coarsen cells.old (flagged flags.now)) }
{
    let mut table = Table { plan, cells };
    table.run(flags, Pass::Activate);
    table.run(flags, Pass::Close);
}
