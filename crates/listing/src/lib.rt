// The refined cells of a table as a file lists them: judged and read back, measured and written.
#![tactic(auto)]

ghost use Rattle.std.specs.Prelude.{◌≡◌, ◌+◌, ◌≤◌, ◌<◌, length, drop};
ghost use Rattle.codec.specs.Fitting.{number_limit};
ghost use Rattle.facts.specs.Writing.{Writes};
ghost use Rattle.codec.specs.Numbers.{decode_rising};
ghost use Rattle.listing.specs.Judged.{ReadsCells, Markable};
ghost use Rattle.listing.specs.Cells.{refined_bytes, Measures, marked_by};

// The last cell, of 64 bits since the sum may pass 32, and the place behind it.
#[derive(Clone, Copy)]
pub struct End {
    pub last: u64,
    pub at: usize,
}

// How many cells are refined, and how many bytes their numbers take.
#[derive(Clone, Copy)]
pub struct Measured {
    pub count: u32,
    pub bytes: usize,
}

// So many cells at a place: the first, then differences that are not 0. None is refusal 12.
// The bytes are lent whole, with a place, as to crate codec.
pub fn read_cells(s: &[u8], from: usize, count: u32) -> Option<End>
    requires from_in_bounds { from ≤ length s.now }
    requires count_lt_number_limit { count < number_limit }
    ensures { ReadsCells s.now from count result }
{
    if count == 0 {
        return Some(End { last: 0, at: from });
    }
    let (cell, mut at) = codec::read(s, from)?;
    let mut last = u64::from(cell);
    for _ in 1..count {
        let (d, next) = codec::read(s, at)?;
        if d == 0 {
            return None;
        }
        last += u64::from(d);
        at = next;
    }
    Some(End { last, at })
}

// Refines each of the cells that stand at a place and were judged good: 2 at its entry of the table.
// The walk of read_cells again, and no closure for what is done with a cell: the two end in other ways.
pub fn mark_cells(s: &[u8], first: usize, count: u32, table: &mut [u8])
    requires { Markable s.now first count (length table.old) }
    ensures { table.new ≡ marked_by (decode_rising count (drop first s.now)) table.old }
{
    if count == 0 {
        return;
    }
    let Some((cell, mut at)) = codec::read(s, first) else {
        return;
    };
    let mut last = cell as usize;
    table[last] = 2;
    for _ in 1..count {
        let Some((d, next)) = codec::read(s, at) else {
            return;
        };
        last += d as usize;
        table[last] = 2;
        at = next;
    }
}

// The refined cells of a table, counted and measured.
pub fn measure(table: &[u8]) -> Measured
    requires { length table.now ≤ number_limit }
    ensures { Measures table.now result }
{
    let mut count = 0;
    let mut bytes = 0;
    let mut last = 0;
    for (i, entry) in table.iter().enumerate() {
        if *entry == 2 {
            count += 1;
            bytes += codec::size((i - last) as u32);
            last = i;
        }
    }
    Measured { count, bytes }
}

// The refined cells of a table put at a place; the place behind them.
// The walk of measure again: what is done with each cell differs, and a closure for it would be no shorter.
pub fn write_cells(table: &[u8], out: &mut [u8], from: usize) -> usize
    requires table_len_bound { length table.now ≤ number_limit }
    requires table_in_bounds { from + length (refined_bytes table.now (length table.now)) ≤ length out.old }
    ensures { Writes out.old from (refined_bytes table.now (length table.now)) result out.new }
{
    let mut at = from;
    let mut last = 0;
    for (i, entry) in table.iter().enumerate() {
        if *entry == 2 {
            at = codec::write(out, at, (i - last) as u32);
            last = i;
        }
    }
    at
}
