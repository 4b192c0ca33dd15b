// What follows when the cells of the new mesh are known, in the two steps of document 000's algorithm 1: the cells are settled, then the
// functions are relabelled. Document 01, "The calls" and "The refusal table"; document 02, Req 04.
#![tactic(auto)]

ghost use Rattle.std.specs.Prelude.{◌≡◌, not, ◌+◌, ◌≤◌, ◌<◌, eqb, ltb, length};
ghost use Rattle.std.specs.Bool.{beq};
ghost use Rattle.refusals.specs.Numbers.{number_of};
ghost use Rattle.grid.specs.Plan.{cell_total, function_total};
ghost use Rattle.mesh.specs.Mesh.{labels};
ghost use Rattle.nesting.specs.Table.{MeshTable};
ghost use Rattle.outcomes.specs.Calls.{changed, written};
ghost use Rattle.outcomes.specs.Steps.{room_refusal, settle_cells, relabel};
ghost use Rattle.outcomes.specs.Answers.{settled_of};
ghost use Rattle.outcomes.specs.Meets.{left_cells, left_functions};
ghost use Rattle.changes.specs.Changes.{Block, ListRoom, ListedTo, Rooms, Taken};

use grid::Plan;
use refusals::Refusal;

// Tables are compared in blocks of so many bytes, and only a block that differs is read byte by byte.
const BLOCK: usize = 64;

// The bytes of one table to another. A loop: the library's copy_from_slice is a memmove of the C library where the compiler can't tell two
// lent tables apart, and the archive for C needs none.
pub fn copy_bytes(to: &mut [u8], from: &[u8])
    requires { length to.old ≡ length from.now }
    ensures { to.new ≡ from.now }
{
    for (i, byte) in from.iter().enumerate() {
        to[i] = *byte;
    }
}

// One of the bytes is 2 (refined, deactivated) and the other is not.
fn differ(a: u8, b: u8) -> bool
    ensures { result ≡ not (beq (eqb a 2) (eqb b 2)) }
{
    (a == 2) != (b == 2)
}

// No number of a block changed: its bytes are equal, or none became 2 or ceased to be. The loop has no early exit, so that the compiler tests
// many bytes at once: where a level of cells becomes present, all its bytes change and none of its numbers.
fn is_still(old: &[u8], new: &[u8], from: usize, to: usize) -> bool
    requires { Block old.now new.now from to }
    ensures { result ≡ eqb (length (changed from old.now new.now)) (length (changed to old.now new.now)) }
{
    if old[from..to] == new[from..to] {
        return true;
    }
    let mut ok = true;
    for i in from..to {
        ok = ok & !differ(old[i], new[i]);
    }
    ok
}

// How many numbers of a block changed.
// Counting and listing stay two loops, here and below: a closure for what is done with a number would be no shorter.
fn count_block(old: &[u8], new: &[u8], from: usize, to: usize) -> usize
    requires { Block old.now new.now from to }
    ensures { length (changed from old.now new.now) + result ≡ length (changed to old.now new.now) }
{
    if is_still(old, new, from, to) {
        return 0;
    }
    let mut n = 0;
    for i in from..to {
        n += usize::from(differ(old[i], new[i]));
    }
    n
}

// How many numbers changed.
fn count_changed(old: &[u8], new: &[u8]) -> usize
    requires { length old.now ≡ length new.now }
    ensures { result ≡ length (changed (length old.now) old.now new.now) }
{
    let mut n = 0;
    let mut at = 0;
    // A while: a `for` with `step_by` takes a third longer.
    while at < old.len() {
        let end = at + BLOCK.min(old.len() - at);
        n += count_block(old, new, at, end);
        at = end;
    }
    n
}

// The numbers of a block that changed, after the n that are listed; the entries past them stay. Answers how many are listed then.
// The lists and their places are parameters: each clause says another thing of them.
fn list_block(old: &[u8], new: &[u8], list: &mut [u32], n: usize, from: usize, to: usize) -> usize
    requires list_room { ListRoom old.now new.now list.old }
    requires block { Block old.now new.now from to }
    requires listed_to { ListedTo from old.now new.now n list.old }
    ensures value { result ≡ length (changed to old.now new.now) }
    ensures list_after { list.new ≡ written (changed to old.now new.now) list.old }
{
    if is_still(old, new, from, to) {
        return n;
    }
    let mut k = n;
    for i in from..to {
        if differ(old[i], new[i]) {
            list[k] = i as u32;
            k += 1;
        }
    }
    k
}

// The same of any numbers from `from` up to, not including, `to`, in blocks.
pub fn list_changed_between(
    old: &[u8],
    new: &[u8],
    list: &mut [u32],
    n: usize,
    from: usize,
    to: usize,
) -> usize
    requires list_room { ListRoom old.now new.now list.old }
    requires block { Block old.now new.now from to }
    requires listed_to { ListedTo from old.now new.now n list.old }
    ensures value { result ≡ length (changed to old.now new.now) }
    ensures list_after { list.new ≡ written (changed to old.now new.now) list.old }
{
    let mut listed = n;
    let mut at = from;
    // A while: a `for` with `step_by` takes a third longer.
    while at < to {
        let end = at + BLOCK.min(to - at);
        listed = list_block(old, new, list, listed, at, end);
        at = end;
    }
    listed
}

// The numbers that changed, in rising order; the entries past them stay. Answers how many they are.
fn list_changed(old: &[u8], new: &[u8], list: &mut [u32]) -> usize
    requires { ListRoom old.now new.now list.old }
    ensures value { result ≡ length (changed (length old.now) old.now new.now) }
    ensures list_after { list.new ≡ written (changed (length old.now) old.now new.now) list.old }
{
    list_changed_between(old, new, list, 0, 0, old.len())
}

// Whether so many entries are too few for the numbers that changed. As many as the table has never are, and nothing is counted then.
pub fn is_short(old: &[u8], new: &[u8], room: usize) -> bool
    requires { length old.now ≡ length new.now }
    ensures { result ≡ ltb room (length (changed (length old.now) old.now new.now)) }
{
    if old.len() <= room {
        return false;
    }
    let count = count_changed(old, new);
    room < count
}

// The same of the functions that relabelling from these cells will change. The labels are made in `made` only if they must be counted.
// `Rooms` stands in four functions: a struct of the lent slices would say it by way of its fields.
fn is_short_for_labels(
    plan: Plan,
    cells: &[u8],
    functions: &[u8],
    room: usize,
    made: &mut [u8],
) -> bool
    requires mesh_table { MeshTable plan cells.now }
    requires rooms { Rooms plan functions.now made.old }
    ensures { result ≡ ltb room (length (changed (function_total plan) functions.now (labels plan cells.now))) }
{
    if functions.len() <= room {
        return false;
    }
    labels::write_labels(plan, cells, made);
    is_short(functions, made, room)
}

// The first of refusals 10 and 11, if any: the cells and the functions are only read.
pub fn room_refusal(
    plan: Plan,
    cells: &[u8],
    functions: &[u8],
    cell_room: usize,
    function_room: usize,
    new_cells: &[u8],
    made: &mut [u8],
) -> Result<(), Refusal>
    requires cells_len { length cells.now ≡ cell_total plan }
    requires mesh_table { MeshTable plan new_cells.now }
    requires rooms { Rooms plan functions.now made.old }
    ensures { number_of result ≡ room_refusal plan cells.now functions.now cell_room function_room new_cells.now }
{
    if is_short(cells, new_cells, cell_room) {
        return Err(Refusal::CellListTooShort);
    }
    if is_short_for_labels(plan, new_cells, functions, function_room, made) {
        return Err(Refusal::FunctionListTooShort);
    }
    Ok(())
}

// The list gets the numbers that changed, and the table the new bytes. Answers how many changed.
pub fn take_over(table: &mut [u8], list: &mut [u32], new: &[u8]) -> u32
    requires { ListRoom table.old new.now list.old }
    ensures { Taken table list new.now result }
{
    let n = list_changed(table, new, list);
    copy_bytes(table, new);
    n as u32
}

// The first step of a call (document 000, algorithm 1, lines 1 to 6), when the cells of the new mesh are known: 10 and 11, or the cells and
// their list are written, and it answers how many cells changed. The functions are only read, and of their list only its length counts.
pub fn settle_cells(
    plan: Plan,
    cells: &mut [u8],
    functions: &[u8],
    cell_list: &mut [u32],
    room: usize,
    new_cells: &[u8],
    made: &mut [u8],
) -> Result<u32, Refusal>
    requires cells_len { length cells.old ≡ cell_total plan }
    requires mesh_table { MeshTable plan new_cells.now }
    requires rooms { Rooms plan functions.now made.old }
    ensures { left_cells (settled_of result) cells cell_list ≡ settle_cells plan cells.old functions.now cell_list.old room new_cells.now }
{
    room_refusal(
        plan,
        cells,
        functions,
        cell_list.len(),
        room,
        new_cells,
        made,
    )?;
    Ok(take_over(cells, cell_list, new_cells))
}

// The second step (lines 7 to 12): the functions and their list get what the settled cells and the old function bytes say. The cells are
// only read. Answers how many functions changed.
pub fn relabel(
    plan: Plan,
    cells: &[u8],
    functions: &mut [u8],
    list: &mut [u32],
    new_functions: &mut [u8],
) -> u32
    requires mesh_table { MeshTable plan cells.now }
    requires rooms { Rooms plan functions.old new_functions.old }
    requires cells_in_bounds { length (changed (function_total plan) functions.old (labels plan cells.now)) ≤ length list.old }
    ensures { left_functions result functions list ≡ relabel plan cells.now functions.old list.old }
{
    labels::write_labels(plan, cells, new_functions);
    take_over(functions, list, new_functions)
}
