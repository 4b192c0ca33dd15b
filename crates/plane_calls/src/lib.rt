// A mesh whose cells are held as two planes of bits, document 02, Req 11: the calls on planes. Each makes the bytes of the cells in a room
// of its own, calls the byte call's parts on them, and makes planes of what they leave.
#![tactic(auto)]

ghost use Rattle.std.specs.Prelude.{◌≡◌, not, cond, ◌*◌, ◌≤◌, eqb, length, take};
ghost use Rattle.refusals.specs.Numbers.{number_of};
ghost use Rattle.facts.specs.Numbers.{Clear};
ghost use Rattle.grid.specs.Plan.{cell_total};
ghost use Rattle.grid.specs.Range.{InRange};
ghost use Rattle.calls.specs.Parts.{direction_of, by_of};
ghost use Rattle.mesh.specs.Mesh.{check, refined as isRefined};
ghost use Rattle.mesh.specs.Answers.{count_of};
ghost use Rattle.outcomes.specs.Answers.{answer_of};
ghost use Rattle.outcomes.specs.Calls.{outcome};
ghost use Rattle.planes.specs.Bits.{words_for, bytes_of, Within, plane_of, is_present};
ghost use Rattle.planes.specs.Planes.{planes_length, sized, size_refusal, refusal3, cells_refusal, order_refusal, refusal4, cells_of, open_planes, check_planes, count_planes, on_planes, packed, unpacked};
ghost use Rattle.planes.specs.Meets.{left_by_open, MeetsOnPlanes, left_by_pack, left_by_unpack};
ghost use Rattle.packing.specs.Packing.{Small};
ghost use Rattle.plane_calls.specs.Steps.{InRoom};

use calls::Call;
use grid::Plan;
use mesh::Counts;
use outcomes::Changes;
use refusals::Refusal;

// The bytes of as many whole words as the largest plane has: 342. A room of this size is on the stack where bytes are needed, since there is no
// heap. The two planes are parameters of their own, since a struct of them would make each clause longer.
const ROOM: usize = 21888;

// How many words a plane has.
fn word_count(plan: Plan) -> usize
    requires { InRange plan }
    ensures { result ≡ words_for (cell_total plan) }
{
    (plan.cell_total() as usize).div_ceil(64)
}

// How many words each plane has, 0 where the plan is refused.
// 0 and no None for a refused plan, as C reads it.
pub fn len(plan: Plan) -> usize
    ensures { result ≡ planes_length plan }
{
    match plan.refusal() {
        Ok(()) => word_count(plan),
        Err(_) => 0,
    }
}

// The first of refusals 1 to 3 of planes, if any.
fn planes_refusal(plan: Plan, present: &[u64], refined: &[u64]) -> Result<(), Refusal>
    ensures { number_of result ≡ size_refusal plan (sized plan present.now refined.now) }
{
    plan.refusal()?;
    let words = word_count(plan);
    if present.len() != words || refined.len() != words {
        return Err(Refusal::TableLength);
    }
    Ok(())
}

// 3 for a table that has another length.
fn length_refusal(table: &[u8], entries: u32) -> Result<(), Refusal>
    ensures { number_of result ≡ cond (not (eqb (length table.now) entries)) 3 0 }
{
    if table.len() != entries as usize {
        return Err(Refusal::TableLength);
    }
    Ok(())
}

// 1 to 3 of planes and functions.
fn refusal(plan: Plan, present: &[u64], refined: &[u64], functions: &[u8]) -> Result<(), Refusal>
    ensures { number_of result ≡ refusal3 plan present.now refined.now functions.now }
{
    planes_refusal(plan, present, refined)?;
    length_refusal(functions, plan.function_total())
}

// 1 to 3 of planes and cells.
fn cells_refusal(plan: Plan, present: &[u64], refined: &[u64], cells: &[u8]) -> Result<(), Refusal>
    ensures { number_of result ≡ cells_refusal plan present.now refined.now cells.now }
{
    planes_refusal(plan, present, refined)?;
    length_refusal(cells, plan.cell_total())
}

// 4 for planes that are not in order.
fn order_refusal(plan: Plan, present: &[u64], refined: &[u64]) -> Result<(), Refusal>
    requires { size_refusal plan (sized plan present.now refined.now) ≡ 0 }
    ensures { number_of result ≡ order_refusal plan present.now refined.now 0 }
{
    if !words::in_order(present, refined, plan.cell_total() as usize) {
        return Err(Refusal::NotAMesh);
    }
    Ok(())
}

// 1 to 4 by planes and functions.
fn early_refusal(
    plan: Plan,
    present: &[u64],
    refined: &[u64],
    functions: &[u8],
) -> Result<(), Refusal>
    ensures { number_of result ≡ refusal4 plan present.now refined.now functions.now }
{
    refusal(plan, present, refined, functions)?;
    order_refusal(plan, present, refined)
}

// The bytes of planes that are in order, made in a room for whole words, and what check says of the cells.
fn check_bytes(
    plan: Plan,
    present: &[u64],
    refined: &[u64],
    functions: &[u8],
    bytes: &mut [u8],
) -> Result<(), Refusal>
    requires functions_value { refusal4 plan present.now refined.now functions.now ≡ 0 }
    requires bytes_len { length bytes.old ≡ 64 * length present.now }
    ensures number { number_of result ≡ check plan (cells_of plan present.now refined.now) functions.now }
    ensures bytes { bytes.new ≡ bytes_of (64 * length present.now) present.now refined.now }
{
    packing::unpack(present, refined, bytes);
    let total = plan.cell_total() as usize;
    tables::check(plan, &bytes[..total], functions)
}

// The first of refusals 1 to 6, if any.
pub fn check(plan: Plan, present: &[u64], refined: &[u64], functions: &[u8]) -> Result<(), Refusal>
    ensures { number_of result ≡ check_planes plan present.now refined.now functions.now }
{
    early_refusal(plan, present, refined, functions)?;
    let whole = 64 * present.len();
    let mut room = [0u8; ROOM];
    let bytes = &mut room[..whole];
    check_bytes(plan, present, refined, functions, bytes)
}

// Active cells, refined cells, active functions and the area. Cells are counted by ones in whole words.
pub fn count(
    plan: Plan,
    present: &[u64],
    refined: &[u64],
    functions: &[u8],
) -> Result<Counts, Refusal>
    ensures { count_of result ≡ count_planes plan present.now refined.now functions.now }
{
    check(plan, present, refined, functions)?;
    Ok(Counts {
        active: words::count_active(present, refined),
        refined: words::count_set(refined),
        functions: tables::bytes::tally(functions, 1),
        area: tables::area(plan),
    })
}

// Level 0 cells and functions 1, the rest 0; nothing with a refusal.
pub fn open(
    plan: Plan,
    present: &mut [u64],
    refined: &mut [u64],
    functions: &mut [u8],
) -> Result<(), Refusal>
    ensures { left_by_open (number_of result) present refined functions ≡ open_planes plan present.old refined.old functions.old }
{
    refusal(plan, present, refined, functions)?; // nothing is written before
    words::fresh(present, plan.cell_offset(1) as usize);
    words::fresh(refined, 0);
    tables::bytes::fresh(functions, plan.function_offset(1) as usize);
    Ok(())
}

// A call on the cells that a room begins with. What stands after them stays.
fn change_bytes(
    checked: Result<(), Refusal>,
    call: Call,
    plan: Plan,
    bytes: &mut [u8],
    functions: &mut [u8],
    marks: &[u32],
    cell_list: &mut [u32],
    function_list: &mut [u32],
) -> Result<Changes, Refusal>
    requires in_range { (InRange plan) × (cell_total plan ≤ length bytes.old) }
    requires checked_value { number_of checked ≡ check plan (take (cell_total plan) bytes.old) functions.old }
    ensures { InRoom (outcome (direction_of call.0) (by_of call.1) plan (take (cell_total plan) bytes.old) functions.old marks.now cell_list.old function_list.old) (cell_total plan) (answer_of result) bytes functions cell_list function_list }
{
    let total = plan.cell_total() as usize;
    calls::change(
        checked,
        call,
        plan,
        &mut bytes[..total],
        functions,
        marks,
        cell_list,
        function_list,
    )
}

// A call on planes that are in order, with a room for the bytes of whole words.
fn change_in(
    call: Call,
    plan: Plan,
    present: &mut [u64],
    refined: &mut [u64],
    functions: &mut [u8],
    marks: &[u32],
    cell_list: &mut [u32],
    function_list: &mut [u32],
    bytes: &mut [u8],
) -> Result<Changes, Refusal>
    requires functions_value { refusal4 plan present.old refined.old functions.old ≡ 0 }
    requires bytes_len { length bytes.old ≡ 64 * length present.old }
    ensures { MeetsOnPlanes (on_planes (outcome (direction_of call.0) (by_of call.1)) plan) (answer_of result) present refined functions marks cell_list function_list }
{
    let checked = check_bytes(plan, present, refined, functions, bytes);
    let changes = change_bytes(
        checked,
        call,
        plan,
        bytes,
        functions,
        marks,
        cell_list,
        function_list,
    )?;
    packing::pack(bytes, present, refined);
    Ok(changes)
}

// One of the four calls. Planes are written only where the call is accepted.
pub fn change(
    call: Call,
    plan: Plan,
    present: &mut [u64],
    refined: &mut [u64],
    functions: &mut [u8],
    marks: &[u32],
    cell_list: &mut [u32],
    function_list: &mut [u32],
) -> Result<Changes, Refusal>
    ensures { MeetsOnPlanes (on_planes (outcome (direction_of call.0) (by_of call.1)) plan) (answer_of result) present refined functions marks cell_list function_list }
{
    early_refusal(plan, present, refined, functions)?;
    let whole = 64 * present.len();
    let mut room = [0u8; ROOM];
    let bytes = &mut room[..whole];
    change_in(
        call,
        plan,
        present,
        refined,
        functions,
        marks,
        cell_list,
        function_list,
        bytes,
    )
}

// The planes of cells, whose bytes are copied into a room of zeros for whole words.
fn pack_cells(cells: &[u8], bytes: &mut [u8], present: &mut [u64], refined: &mut [u64])
    requires refined_len { (length refined.old ≡ length present.old) × (length bytes.old ≡ 64 * length present.old) }
    requires cells_in_bounds { (length cells.now ≤ length bytes.old) × Small cells.now }
    requires clear { Clear bytes.old }
    ensures { (present.new ≡ plane_of (length present.old) (is_present cells.now)) × (refined.new ≡ plane_of (length present.old) (isRefined cells.now)) }
{
    let total = cells.len();
    bytes[..total].copy_from_slice(cells);
    packing::pack(bytes, present, refined);
}

// The planes of a cell table: refuses 1 to 3, and 4 for another byte than 0, 1, 2.
pub fn from_cells(
    plan: Plan,
    cells: &[u8],
    present: &mut [u64],
    refined: &mut [u64],
) -> Result<(), Refusal>
    ensures { left_by_pack (number_of result) present refined ≡ packed plan cells.now present.old refined.old }
{
    cells_refusal(plan, present, refined, cells)?;
    if !packing::are_small(cells) {
        return Err(Refusal::NotAMesh);
    }
    let whole = 64 * present.len();
    let mut room = [0u8; ROOM];
    let bytes = &mut room[..whole];
    pack_cells(cells, bytes, present, refined);
    Ok(())
}

// The bytes of the first cells of planes, by way of a room for whole words.
fn unpack_cells(present: &[u64], refined: &[u64], bytes: &mut [u8], cells: &mut [u8])
    requires refined_len { (length refined.now ≡ length present.now) × (length bytes.old ≡ 64 * length present.now) }
    requires cells_in_bounds { (length cells.old ≤ length bytes.old) × Within present.now refined.now }
    ensures { cells.new ≡ bytes_of (length cells.old) present.now refined.now }
{
    packing::unpack(present, refined, bytes);
    let total = cells.len();
    cells.copy_from_slice(&bytes[..total]);
}

// The cell table that planes hold: refuses 1 to 3, and 4 for planes that are not in order.
pub fn to_cells(
    plan: Plan,
    present: &[u64],
    refined: &[u64],
    cells: &mut [u8],
) -> Result<(), Refusal>
    ensures { left_by_unpack (number_of result) cells ≡ unpacked plan present.now refined.now cells.old }
{
    cells_refusal(plan, present, refined, cells)?;
    order_refusal(plan, present, refined)?;
    let whole = 64 * present.len();
    let mut room = [0u8; ROOM];
    let bytes = &mut room[..whole];
    unpack_cells(present, refined, bytes, cells);
    Ok(())
}
