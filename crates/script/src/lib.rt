// A `wall` line of a session (document 01, "The session program"), and the texts that any line prints, on lent tables and bytes: nothing is
// read or written here.
#![tactic(auto)]

mod done;
mod hand;

ghost use Rattle.std.specs.Prelude.{◌≤◌, length};
ghost use Rattle.refusals.specs.Numbers.{number_of};
ghost use Rattle.lines.specs.Writing.{answer as answer·line, question as question·line, large as large·line};
ghost use Rattle.script.specs.Session.{opening};
ghost use Rattle.script.specs.Steps.{held, Said, Replied};
ghost use Rattle.script.specs.Bounds.{wall_cells, wall_functions};

pub use done::Done;
use grid::Plan;
pub use hand::Hand;
use refusals::{Refusal, number_of};

// The input that a session reads, the cells and functions of its largest walls, and room for its longest answer, 243,080 bytes.
pub const INPUT_BYTES: usize = 16384;

pub const WALL_CELLS: usize = 4096;

pub const WALL_FUNCTIONS: usize = 18001;

pub const ANSWER_BYTES: usize = 11 * (WALL_CELLS + WALL_FUNCTIONS) + 13;

pub fn say_question(out: &mut [u8; ANSWER_BYTES]) -> usize
    ensures { Said question·line result out.new }
{
    lines::write_question(out)
}

fn say_large(out: &mut [u8; ANSWER_BYTES]) -> usize
    ensures { Said large·line result out.new }
{
    lines::write_large(out)
}

// 0 or the number of a refusal, and the lists: the longest answer of a session's wall has room.
pub fn say_answer(
    out: &mut [u8; ANSWER_BYTES],
    answer: Result<(), Refusal>,
    cells: &[u32],
    functions: &[u32],
) -> usize
    requires { (length cells.now ≤ wall_cells) × (length functions.now ≤ wall_functions) }
    ensures { Said (answer·line (number_of answer) cells.now functions.now) result out.new }
{
    lines::write_answer(out, number_of(answer), cells, functions)
}

// The new wall, or the earlier one where the plan is refused or too large for a session.
pub fn open(
    earlier: Option<Hand>,
    plan: Plan,
    cells: &mut [u8; WALL_CELLS],
    functions: &mut [u8; WALL_FUNCTIONS],
    out: &mut [u8; ANSWER_BYTES],
) -> Done
    ensures { Replied (opening (held earlier cells.old functions.old) plan) result cells.new functions.new out.new }
{
    if let Err(refusal) = plan.refusal() {
        let count = say_answer(out, Err(refusal), &[], &[]);
        return Done {
            hand: earlier,
            count,
        };
    }
    let total = plan.cell_total() as usize;
    if total > WALL_CELLS {
        let count = say_large(out);
        return Done {
            hand: earlier,
            count,
        };
    }
    let labels = plan.function_total() as usize;
    let opened = tables::open(plan, &mut cells[..total], &mut functions[..labels]);
    let count = say_answer(out, opened, &[], &[]);
    let hand = Hand {
        plan,
        cells: total,
        functions: labels,
    };
    Done {
        hand: Some(hand),
        count,
    }
}
