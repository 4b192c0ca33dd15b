// Reading the lines of a session and writing its answers, on lent bytes. No function that others call has a `requires`.
#![tactic(auto)]

ghost use Rattle.std.specs.Prelude.{◌≡◌, true, [], ◌∷◌, ◌++◌, map, ◌+◌, ◌≤◌, ◌<◌, leb, length, drop};
ghost use Rattle.lines.specs.Reading.{up_to, value_of, number_of, all_numbers, kind_of, fits as fits·count, EndsLine, Reads};
ghost use Rattle.lines.specs.Writing.{digits, spaced, items, answer as answer·line, question as question·line, large as large·line, answer_room, Prints};
ghost use Rattle.lines.specs.Steps.{fields_behind, Counted, ReadsField};
ghost use Rattle.facts.specs.Writing.{Writes};

// What a line asks for.
// Unreadable is a kind and not None, as the definition of reading has it.
#[derive(Clone, Copy)]
pub enum Kind {
    Unreadable,
    Wall,
    Split,
    Join,
    SplitFunctions,
    JoinFunctions,
}

// A line that was read: what it asks, and how many numbers it has.
#[derive(Clone, Copy)]
pub struct Line {
    pub kind: Kind,
    pub count: usize,
}

// A field of a line: the number that it holds, none where it is no number of 32 bits, and the place of the space after it or of the line's
// end.
#[derive(Clone, Copy)]
struct Field {
    number: Option<u32>,
    end: usize,
}

// The place of the first `stop` in the text at `from` or after it, or its end.
fn find(text: &[u8], from: usize, stop: u8) -> usize
    ensures { result ≡ from + length (up_to stop (drop from text.now)) }
{
    // no position, which has no law that meets the definition's recursion
    for i in from..text.len() {
        if text[i] == stop {
            return i;
        }
    }
    from.max(text.len())
}

// Where the line that starts at `from` ends; the next one starts after that place.
pub fn line_end(input: &[u8], from: usize) -> usize
    ensures { EndsLine input.now from result }
{
    find(input, from, b'\n')
}

// A field as a number.
// By hand and no parse, which takes a sign too.
fn read_number(text: &[u8]) -> Option<u32>
    ensures { result ≡ number_of text.now }
{
    if text.is_empty() {
        return None;
    }
    let mut value: u32 = 0;
    for byte in text {
        if !byte.is_ascii_digit() {
            return None;
        }
        value = value.checked_mul(10)?.checked_add(u32::from(*byte - b'0'))?;
    }
    Some(value)
}

// What the first word of a line asks.
// A chain of tests and no match: in the arm of a byte string a proof knows the length and no byte.
fn kind_of(word: &[u8]) -> Kind
    ensures { result ≡ kind_of word.now }
{
    if word == b"wall".as_slice() {
        return Kind::Wall;
    }
    if word == b"split".as_slice() {
        return Kind::Split;
    }
    if word == b"join".as_slice() {
        return Kind::Join;
    }
    if word == b"fsplit".as_slice() {
        return Kind::SplitFunctions;
    }
    if word == b"fjoin".as_slice() {
        return Kind::JoinFunctions;
    }
    Kind::Unreadable
}

// Whether a line of this kind has that many numbers.
fn fits(kind: Kind, count: usize) -> bool
    ensures { result ≡ fits·count kind count }
{
    match kind {
        Kind::Unreadable => false,
        Kind::Wall => (count == 6) | (count == 8),
        Kind::Split | Kind::Join | Kind::SplitFunctions | Kind::JoinFunctions => count <= 64,
    }
}

// The field after the space at `at`.
fn read_field(line: &[u8], at: usize) -> Field
    requires { at < length line.now }
    ensures { ReadsField line.now at result }
{
    let start = at + 1;
    let end = find(line, start, b' ');
    let number = read_number(&line[start..end]);
    Field { number, end }
}

// How many numbers stand after the space at `from`; none where a field is no number.
fn count_numbers(line: &[u8], from: usize) -> Option<usize>
    ensures { Counted (fields_behind (drop from line.now)) result }
{
    let mut count = 0;
    let mut at = from;
    // a while: each step goes to the end of a field, which only `read_field` knows
    while at < line.len() {
        let field = read_field(line, at);
        field.number?;
        count += 1;
        at = field.end;
    }
    Some(count)
}

// The numbers after the space at `from`, of which there are as many as the list has.
fn store_numbers(line: &[u8], from: usize, numbers: &mut [u32])
    requires line_value { all_numbers (fields_behind (drop from line.now)) ≡ true }
    requires line_in_bounds { length (fields_behind (drop from line.now)) ≡ length numbers.old }
    ensures { numbers.new ≡ map value_of (fields_behind (drop from line.now)) }
{
    let mut at = from;
    for number in numbers.iter_mut() {
        let field = read_field(line, at);
        *number = field.number.unwrap();
        at = field.end;
    }
}

// A line that cannot be read.
const UNREADABLE: Line = Line {
    kind: Kind::Unreadable,
    count: 0,
};

// A line, without its line feed, and its numbers, for which there have to be 64 places.
pub fn read_line(line: &[u8], numbers: &mut [u32]) -> Line
    ensures { Reads line.now numbers.old result numbers.new }
{
    if numbers.len() < 64 {
        return UNREADABLE;
    }
    let end = find(line, 0, b' ');
    let kind = kind_of(&line[..end]);
    let Some(count) = count_numbers(line, end) else {
        return UNREADABLE;
    };
    if !fits(kind, count) {
        return UNREADABLE;
    }
    store_numbers(line, end, &mut numbers[..count]);
    Line { kind, count }
}

// A buffer, and the place in it of the next byte.
#[derive(Drop)]
struct Writer<'a> {
    out: &'a mut [u8],
    at: usize,
}

impl<'a> Writer<'a> {
    fn byte(&mut self, byte: u8)
        requires { self.old.at < length self.old.out.now }
        ensures same_buffer { self.new.out.ghost_name ≡ self.old.out.ghost_name }
        ensures writes { Writes self.old.out.now self.old.at (byte ∷ []) self.new.at self.new.out.now }
    {
        self.out[self.at] = byte;
        self.at += 1;
    }

    // The digits of a number, those of its tenth first.
    // By hand: write! over lent bytes promises nothing of what it writes.
    fn number(&mut self, number: u32)
        requires { self.old.at + length (digits number) ≤ length self.old.out.now }
        ensures same_buffer { self.new.out.ghost_name ≡ self.old.out.ghost_name }
        ensures writes { Writes self.old.out.now self.old.at (digits number) self.new.at self.new.out.now }
    {
        if number < 10 {
            self.byte(b'0' + number as u8);
            return;
        }
        self.number(number / 10);
        self.byte(b'0' + (number % 10) as u8);
    }

    // Items, each after a space.
    fn spaced(&mut self, list: &[u32])
        requires { self.old.at + length (spaced list.now) ≤ length self.old.out.now }
        ensures same_buffer { self.new.out.ghost_name ≡ self.old.out.ghost_name }
        ensures writes { Writes self.old.out.now self.old.at (spaced list.now) self.new.at self.new.out.now }
    {
        for item in list {
            self.byte(b' ');
            self.number(*item);
        }
    }

    // The items of a list, a space between two.
    fn items(&mut self, list: &[u32])
        requires { self.old.at + length (items list.now) ≤ length self.old.out.now }
        ensures same_buffer { self.new.out.ghost_name ≡ self.old.out.ghost_name }
        ensures writes { Writes self.old.out.now self.old.at (items list.now) self.new.at self.new.out.now }
    {
        let [first, rest @ ..] = list else {
            return;
        };
        self.number(*first);
        self.spaced(rest);
    }
}

// Whether a buffer has room for the longest answer with lists of these lengths.
fn has_room(space: usize, cells: usize, functions: usize) -> bool
    ensures { result ≡ leb (answer_room cells functions) space }
{
    space >= 13 && cells.saturating_add(functions) <= (space - 13) / 11
}

fn put_answer(out: &mut [u8], number: u32, cells: &[u32], functions: &[u32]) -> usize
    requires { answer_room (length cells.now) (length functions.now) ≤ length out.old }
    ensures { Writes out.old 0 (answer·line number cells.now functions.now) result out.new }
{
    let mut line = Writer { out, at: 0 };
    line.number(number);
    line.byte(b';');
    line.items(cells);
    line.byte(b';');
    line.items(functions);
    line.byte(b'\n');
    line.at
}

// The line of an answer at the start of the buffer. The result is its length, or 0 and no None where there is no room: so these
// functions promise it.
pub fn write_answer(out: &mut [u8], number: u32, cells: &[u32], functions: &[u32]) -> usize
    ensures { Prints (leb (answer_room (length cells.now) (length functions.now)) (length out.old)) out.old (answer·line number cells.now functions.now) result out.new }
{
    if has_room(out.len(), cells.len(), functions.len()) {
        put_answer(out, number, cells, functions)
    } else {
        0
    }
}

// A text at the start of the buffer, as `write_answer` has it.
fn write_text(out: &mut [u8], text: &[u8]) -> usize
    ensures { Prints (leb (length text.now) (length out.old)) out.old text.now result out.new }
{
    let length = text.len();
    if out.len() < length {
        return 0;
    }
    out[..length].copy_from_slice(text);
    length
}

// The line `?`, as `write_answer` has it.
pub fn write_question(out: &mut [u8]) -> usize
    ensures { Prints (leb 2 (length out.old)) out.old question·line result out.new }
{
    write_text(out, b"?\n")
}

// The line `large`, as `write_answer` has it.
pub fn write_large(out: &mut [u8]) -> usize
    ensures { Prints (leb 6 (length out.old)) out.old large·line result out.new }
{
    write_text(out, b"large\n")
}
