// One line of a session (document 01, "The session program"), on lent tables, lists and bytes: nothing is read or written here.
#![tactic(auto)]

ghost use Rattle.std.specs.Prelude.{◌≡◌, ◌≤◌, length, IfOk};
ghost use Rattle.outcomes.specs.Answers.{answer_of};
ghost use Rattle.outcomes.specs.Calls.{outcome};
ghost use Rattle.outcomes.specs.Meets.{Meets};
ghost use Rattle.calls.specs.Parts.{direction_of, by_of};
ghost use Rattle.script.specs.Session.{calling, obey as obey·kind, step_of};
ghost use Rattle.script.specs.Steps.{held, Replied};
ghost use Rattle.script.specs.Bounds.{answer_bytes, wall_cells, wall_functions};
ghost use Rattle.replies.specs.Steps.{Answered};

use calls::{By, Call, Direction};
use grid::Plan;
use lines::Kind;
use outcomes::Changes;
use refusals::Refusal;
use script::{ANSWER_BYTES, Done, Hand, WALL_CELLS, WALL_FUNCTIONS};

// The call that a line asks for.
// As `change` of wallmirror, a crate that only exports to C.
fn call(
    asked: Call,
    plan: Plan,
    cells: &mut [u8],
    functions: &mut [u8],
    marks: &[u32],
    cell_list: &mut [u32],
    function_list: &mut [u32],
) -> Result<Changes, Refusal>
    ensures meets { Meets (outcome (direction_of asked.0) (by_of asked.1) plan) (answer_of result) cells functions marks cell_list function_list }
    ensures in_bounds { IfOk result (λ changes. (changes.cells ≤ length cell_list.new) × (changes.functions ≤ length function_list.new)) }
{
    let checked = tables::check(plan, cells, functions);
    calls::change(
        checked,
        asked,
        plan,
        cells,
        functions,
        marks,
        cell_list,
        function_list,
    )
}

// A call, and its answer.
fn answer(
    asked: Call,
    plan: Plan,
    cells: &mut [u8],
    functions: &mut [u8],
    marks: &[u32],
    cell_list: &mut [u32],
    function_list: &mut [u32],
    out: &mut [u8; ANSWER_BYTES],
) -> usize
    requires { (length cell_list.old ≤ wall_cells) × (length function_list.old ≤ wall_functions) }
    ensures { Answered (outcome (direction_of asked.0) (by_of asked.1) plan cells.old functions.old marks.now cell_list.old function_list.old) result cells.new functions.new out.new }
{
    match call(
        asked,
        plan,
        cells,
        functions,
        marks,
        cell_list,
        function_list,
    ) {
        Ok(changes) => script::say_answer(
            out,
            Ok(()),
            &cell_list[..changes.cells as usize],
            &function_list[..changes.functions as usize],
        ),
        Err(refusal) => script::say_answer(out, Err(refusal), &[], &[]),
    }
}

// A line with marks, on the wall in hand.
fn change(
    hand: Option<Hand>,
    asked: Call,
    marks: &[u32],
    cells: &mut [u8; WALL_CELLS],
    functions: &mut [u8; WALL_FUNCTIONS],
    cell_list: &mut [u32; WALL_CELLS],
    function_list: &mut [u32; WALL_FUNCTIONS],
    out: &mut [u8; ANSWER_BYTES],
) -> Done
    ensures { Replied (calling (direction_of asked.0) (by_of asked.1) (held hand cells.old functions.old) marks.now) result cells.new functions.new out.new }
{
    let Some(wall) = hand else {
        let count = script::say_question(out);
        return Done { hand, count };
    };
    let count = answer(
        asked,
        wall.plan,
        &mut cells[..wall.cells],
        &mut functions[..wall.functions],
        marks,
        &mut cell_list[..wall.cells],
        &mut function_list[..wall.functions],
        out,
    );
    Done { hand, count }
}

// A line that was read. The clause on lengths is for `step`, which lends the start of slices.
fn obey(
    hand: Option<Hand>,
    kind: Kind,
    numbers: &[u32],
    cells: &mut [u8; WALL_CELLS],
    functions: &mut [u8; WALL_FUNCTIONS],
    cell_list: &mut [u32; WALL_CELLS],
    function_list: &mut [u32; WALL_FUNCTIONS],
    out: &mut [u8; ANSWER_BYTES],
) -> Done
    ensures lens { (length cells.new ≡ wall_cells) × (length functions.new ≡ wall_functions) }
    ensures replied { Replied (obey·kind kind (held hand cells.old functions.old) numbers.now) result cells.new functions.new out.new }
{
    let asked = match kind {
        Kind::Unreadable => {
            let count = script::say_question(out);
            return Done { hand, count };
        }
        Kind::Wall => return script::open(hand, grid::plan_of(numbers), cells, functions, out),
        Kind::Split => Call(Direction::Refine, By::Cells),
        Kind::Join => Call(Direction::Coarsen, By::Cells),
        Kind::SplitFunctions => Call(Direction::Refine, By::Functions),
        Kind::JoinFunctions => Call(Direction::Coarsen, By::Functions),
    };
    change(
        hand,
        asked,
        numbers,
        cells,
        functions,
        cell_list,
        function_list,
        out,
    )
}

// A line without its line feed: what it leaves in hand and in the tables, and what it prints, at the start of the buffer. The tables, the
// lists and the buffer have room for a session's largest wall.
pub fn step(
    hand: Option<Hand>,
    line: &[u8],
    cells: &mut [u8],
    functions: &mut [u8],
    cell_list: &mut [u32],
    function_list: &mut [u32],
    out: &mut [u8],
) -> Done
    requires table_room { (wall_cells ≤ length cells.old) × (wall_functions ≤ length functions.old) }
    requires list_room { (wall_cells ≤ length cell_list.old) × (wall_functions ≤ length function_list.old) }
    requires out_room { answer_bytes ≤ length out.old }
    ensures { Replied (step_of (held hand cells.old functions.old) line.now) result cells.new functions.new out.new }
{
    // no heap: room for as many numbers as a line has at most
    let mut numbers = [0u32; 64];
    let read = lines::read_line(line, &mut numbers);
    obey(
        hand,
        read.kind,
        &numbers[..read.count],
        cells.first_chunk_mut().unwrap(),
        functions.first_chunk_mut().unwrap(),
        cell_list.first_chunk_mut().unwrap(),
        function_list.first_chunk_mut().unwrap(),
        out.first_chunk_mut().unwrap(),
    )
}
