// A mesh and its file: document 02, Req 01, with the corners of Req 05. Any bytes, plans and tables are taken; what is refused gets its
// number and nothing is written.
#![tactic(auto)]

ghost use Rattle.std.specs.Prelude.{◌≡◌, ◌+◌, ◌≤◌, ◌<◌, length};
ghost use Rattle.facts.specs.Writing.{Writes};
ghost use Rattle.refusals.specs.Numbers.{number, number_of};
ghost use Rattle.codec.specs.Fitting.{number_limit};
ghost use Rattle.grid.specs.Bounds.{most_cells};
ghost use Rattle.grid.specs.Plan.{cell_total};
ghost use Rattle.mesh.specs.Mesh.{refusal3};
ghost use Rattle.nesting.specs.Table.{CellTable, MeshTable};
ghost use Rattle.files.specs.File.{no_corners, encode_corners, file_of, rebuilt, answered_plan, read_mesh, write_text, write_mesh};
ghost use Rattle.facts.specs.Numbers.{Clear};
ghost use Rattle.files.specs.Answers.{read_answer_of, judged_answer_of, write_answer_of};
ghost use Rattle.files.specs.Steps.{left_by_read, left_by_write, ReadsCorners, plan_with, cells_of, GoodFile, JudgesFile, table_refusal};

use grid::{MOST_CELLS, Plan};
use refusals::Refusal;

// Why reading is refused, and the plan that is answered nevertheless: all zeros with refusals 1, 2 and 12.
#[derive(Clone, Copy)]
pub struct ReadRefusal {
    pub refusal: Refusal,
    pub plan: Plan,
}

// What reading answers, for C, which has no enum that holds a value: a refusal or 0, and the plan.
#[repr(C)]
#[derive(Clone, Copy)]
pub struct ReadAnswer {
    pub number: u32,
    pub plan: Plan,
}

impl From<Result<Plan, ReadRefusal>> for ReadAnswer {
    ghost from_gives = { λ read answer. answer ≡ read_answer_of read };

    fn from(read: Result<Plan, ReadRefusal>) -> ReadAnswer {
        match read {
            Ok(plan) => ReadAnswer { number: 0, plan },
            Err(refused) => ReadAnswer {
                number: u32::from(refused.refusal),
                plan: refused.plan,
            },
        }
    }
}

// The same of writing: a refusal or 0, and how many bytes were written.
#[repr(C)]
#[derive(Clone, Copy)]
pub struct WriteAnswer {
    pub number: u32,
    pub length: u32,
}

impl From<Result<u32, Refusal>> for WriteAnswer {
    ghost from_gives = { λ written answer. answer ≡ write_answer_of written };

    fn from(written: Result<u32, Refusal>) -> WriteAnswer {
        match written {
            Ok(length) => WriteAnswer { number: 0, length },
            Err(refusal) => WriteAnswer {
                number: u32::from(refusal),
                length: 0,
            },
        }
    }
}

// A file that can be read: its plan, how many cells it lists and where their numbers begin, where the last number ends, and the last cell.
#[derive(Clone, Copy)]
struct Outline {
    plan: Plan,
    count: u32,
    first: usize,
    end: usize,
    last: u64,
}

// The corner numbers that a file ends with, both 0 where it has none, and the place behind them.
#[derive(Clone, Copy)]
struct Corners {
    across: u32,
    up: u32,
    end: usize,
}

// Neither direction has a corner.
// Two numbers and no struct, as a plan has them; both 0 where there is no corner.
fn no_corners(across: u32, up: u32) -> bool
    ensures { result ≡ no_corners across up }
{
    (across == 0) & (up == 0)
}

// The corner numbers behind the last cell. A lone number and two zeros are refused.
fn read_corners(s: &[u8], from: usize) -> Option<Corners>
    requires { from ≤ length s.now }
    ensures { ReadsCorners s.now from result }
{
    if s.len() <= from {
        return Some(Corners {
            across: 0,
            up: 0,
            end: from,
        });
    }
    let (across, middle) = codec::read(s, from)?;
    let (up, end) = codec::read(s, middle)?;
    let zeros = no_corners(across, up);
    if zeros {
        return None;
    }
    Some(Corners { across, up, end })
}

// The plan of a head, without its last number, which is the count, and of corners.
fn plan_with(head: &[u32; 7], across: u32, up: u32) -> Plan
    ensures { result ≡ plan_with head.now across up }
{
    let [columns, rows, levels, degree_across, degree_up, class, _] = *head;
    Plan {
        columns,
        rows,
        levels,
        degree_across,
        degree_up,
        class,
        corners_across: across,
        corners_up: up,
    }
}

// The head, as many cells as it counts, and the corners, in one pass over the bytes; none is refusal 12. What stands behind the last number
// is left for later.
fn judge(s: &[u8]) -> Option<Outline>
    ensures { JudgesFile s.now result }
{
    // no heap: as many numbers as a head has
    let mut head = [0u32; 7];
    let first = codec::read_all(s, 0, &mut head)?;
    let count = head[6];
    let cells = listing::read_cells(s, first, count)?;
    let corners = read_corners(s, cells.at)?;
    let plan = plan_with(&head, corners.across, corners.up);
    Some(Outline {
        plan,
        count,
        first,
        end: corners.end,
        last: cells.last,
    })
}

// A refusal of a file that is judged: with 1 and 2 the plan is not answered.
fn refuse(refusal: Refusal, plan: Plan) -> ReadRefusal
    ensures { result ≡ record { refusal = refusal; plan = answered_plan (number refusal) plan } }
{
    let plan = match refusal {
        Refusal::PlanOutOfRange | Refusal::TooManyCells => Plan::default(),
        _ => plan,
    };
    ReadRefusal { refusal, plan }
}

// The listed cells refined in a table of zeros, and the other cells as they follow from these.
fn rebuild(file: &[u8], outline: Outline, table: &mut [u8])
    requires good_file { GoodFile file.now outline }
    requires last_in_bounds { outline.last < length table.old }
    requires cell_table { CellTable outline.plan table.old }
    requires clear { Clear table.old }
    ensures { table.new ≡ rebuilt outline.plan (cells_of file.now outline) }
{
    listing::mark_cells(file, outline.first, outline.count, table);
    nesting::complete(outline.plan, table);
}

// Refusals 4 and 5 of a rebuilt table, and 13.
fn table_refusal(plan: Plan, table: &[u8], whole: bool) -> Result<(), Refusal>
    requires { (CellTable plan table.now) × (cell_total plan ≤ most_cells) }
    ensures { number_of result ≡ table_refusal plan table.now whole }
{
    tables::cells_refusal(plan, table)?;
    if !whole {
        return Err(Refusal::TrailingBytes);
    }
    Ok(())
}

// Reading, when the file is judged: the mesh is rebuilt beside the lent tables, and taken over once nothing refuses it.
fn restore(
    file: &[u8],
    outline: Outline,
    cells: &mut [u8],
    functions: &mut [u8],
) -> Result<(), Refusal>
    requires good_file { GoodFile file.now outline }
    ensures { left_by_read (judged_answer_of outline.plan result) cells functions ≡ read_mesh file.now cells.old functions.old }
{
    let plan = outline.plan;
    tables::refusal(plan, cells, functions)?;
    let total = plan.cell_total() as usize;
    if outline.last >= total as u64 {
        return Err(Refusal::NotAMesh);
    }
    // no heap: room of the largest size, of which the front is used
    let mut room = [0u8; MOST_CELLS];
    let table = &mut room[..total];
    rebuild(file, outline, table);
    table_refusal(plan, table, outline.end == file.len())?;
    cells.copy_from_slice(table);
    labels::write_labels(plan, cells, functions);
    Ok(())
}

// Rebuilds both tables from a file, and answers the plan; nothing is written with a refusal.
pub fn read(file: &[u8], cells: &mut [u8], functions: &mut [u8]) -> Result<Plan, ReadRefusal>
    ensures { left_by_read (read_answer_of result) cells functions ≡ read_mesh file.now cells.old functions.old }
{
    let Some(outline) = judge(file) else {
        return Err(ReadRefusal {
            refusal: Refusal::MalformedFile,
            plan: Plan::default(),
        });
    };
    let plan = outline.plan;
    match restore(file, outline, cells, functions) {
        Ok(()) => Ok(plan),
        Err(refusal) => Err(refuse(refusal, plan)),
    }
}

// How many bytes the corner numbers take.
fn size_corners(across: u32, up: u32) -> usize
    requires { (across < number_limit) × (up < number_limit) }
    ensures { result ≡ length (encode_corners across up) }
{
    if no_corners(across, up) {
        return 0;
    }
    codec::size(across) + codec::size(up)
}

// The corner numbers put at a place, nothing where both are 0; the place behind them. The buffer is lent whole, as to codec::write.
fn write_corners(across: u32, up: u32, out: &mut [u8], at: usize) -> usize
    requires across_lt_number_limit { (across < number_limit) × (up < number_limit) }
    requires up_in_bounds { at + length (encode_corners across up) ≤ length out.old }
    ensures { Writes out.old at (encode_corners across up) result out.new }
{
    if no_corners(across, up) {
        return at;
    }
    let middle = codec::write(out, at, across);
    codec::write(out, middle, up)
}

// Writing, when the tables are checked: the whole length is known before the first byte is written. No cell of the last level is
// refined, so that level, most of the table, is not read.
fn write_mesh(plan: Plan, cells: &[u8], file: &mut [u8]) -> Result<u32, Refusal>
    requires { (MeshTable plan cells.now) × (cell_total plan ≤ most_cells) }
    ensures { left_by_write (write_answer_of result) file ≡ write_text (file_of plan cells.now) file.old }
{
    let inner = plan.cell_offset(plan.levels - 1) as usize;
    let coarse = &cells[..inner];
    let listed = listing::measure(coarse);
    let head = [
        plan.columns,
        plan.rows,
        plan.levels,
        plan.degree_across,
        plan.degree_up,
        plan.class,
        listed.count,
    ];
    let across = plan.corners_across;
    let up = plan.corners_up;
    let length = codec::size_all(&head) + listed.bytes + size_corners(across, up);
    if file.len() < length {
        return Err(Refusal::CellListTooShort);
    }
    let at = codec::write_all(&head, file, 0);
    let end = listing::write_cells(coarse, file, at);
    write_corners(across, up, file, end);
    Ok(length as u32)
}

// Writes the file of a mesh, and answers how many bytes that are; nothing is written with a refusal.
pub fn write(plan: Plan, cells: &[u8], functions: &[u8], file: &mut [u8]) -> Result<u32, Refusal>
    ensures { left_by_write (write_answer_of result) file ≡ write_mesh plan cells.now functions.now file.old }
{
    tables::check(plan, cells, functions)?;
    write_mesh(plan, cells, file)
}
