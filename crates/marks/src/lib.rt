// Marks of a call: refusals 7, 8 and 9, and tables made of marks and of bytes, number by number.
// Document 01, "The calls" and "The refusal table".
#![tactic(auto)]

ghost use Rattle.std.specs.Prelude.{◌≡◌, length};
ghost use Rattle.refusals.specs.Numbers.{number_of};
ghost use Rattle.facts.specs.Numbers.{first, tabulate};
ghost use Rattle.marks.specs.Marks.{verdict, MarksBelow, with_marks, unmarked as weight·unmarked, unmarked_at, weighed, common, common_at};

use refusals::Refusal;

// Whether a mark is refused, and why.
#[tactic(auto, unfolding(crate::specs::Marks::verdict))]
fn verdict_of(kinds: &[u8], deep: u32, mark: u32) -> Result<(), Refusal>
    ensures { number_of result ≡ verdict kinds.now deep mark }
{
    let at = mark as usize;
    if at >= kinds.len() {
        return Err(Refusal::MarkOutOfRange);
    }
    if kinds[at] != 1 {
        return Err(Refusal::MarkOfWrongKind);
    }
    if deep <= mark {
        return Err(Refusal::MarkOfLastLevel);
    }
    Ok(())
}

// The refusal of the first mark that has one: marks in list order, each tried for 7, 8, 9.
pub fn judge(kinds: &[u8], deep: u32, marks: &[u32]) -> Result<(), Refusal>
    ensures { number_of result ≡ first (verdict kinds.now deep) marks.now }
{
    for mark in marks {
        verdict_of(kinds, deep, *mark)?;
    }
    Ok(())
}

// The marked numbers get byte 1, repeats mean one mark; the others keep theirs.
fn flag(marks: &[u32], out: &mut [u8])
    requires { MarksBelow (length out.old) marks.now }
    ensures { out.new ≡ with_marks (length out.old) marks.now out.old }
{
    for mark in marks {
        out[*mark as usize] = 1;
    }
}

fn unmarked_of(byte: u8) -> u8
    ensures { result ≡ weight·unmarked byte }
{
    if byte == 2 { 0 } else { 2 }
}

// 0 for the byte 2 of a table, and 2 for any other.
fn unmarked(table: &[u8], out: &mut [u8])
    requires { length table.now ≡ length out.old }
    ensures { out.new ≡ tabulate (length out.old) (unmarked_at table.now) }
{
    for (i, byte) in table.iter().enumerate() {
        out[i] = unmarked_of(*byte);
    }
}

// For each number of a table: 1 marked, 0 refined (deactivated) and not marked, 2 any other.
pub fn weigh(table: &[u8], marks: &[u32], out: &mut [u8])
    requires table_len { length table.now ≡ length out.old }
    requires marks_below { MarksBelow (length out.old) marks.now }
    ensures { out.new ≡ weighed (length out.old) table.now marks.now }
{
    unmarked(table, out);
    flag(marks, out);
}

fn common_of(a: u8, b: u8) -> u8
    ensures { result ≡ common a b }
{
    u8::from((a == 1) & (b == 1))
}

// Of the numbers that are flagged, those stay so that have byte 1 in a table too.
pub fn keep(table: &[u8], flags: &mut [u8])
    requires { length table.now ≡ length flags.old }
    ensures { flags.new ≡ tabulate (length flags.old) (common_at flags.old table.now) }
{
    for (i, byte) in table.iter().enumerate() {
        flags[i] = common_of(flags[i], *byte);
    }
}
