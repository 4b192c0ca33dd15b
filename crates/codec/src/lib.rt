// The numbers of a mesh's file: groups of seven bits, lowest first, the high bit on all but the last.
#![tactic(auto)]

ghost use Rattle.std.specs.Prelude.{◌≡◌, ◌+◌, ◌≤◌, ◌<◌, length, MatchOption};
ghost use Rattle.facts.specs.Writing.{Writes};
ghost use Rattle.codec.specs.Numbers.{encode_number, encode_numbers};
ghost use Rattle.codec.specs.Fitting.{number_limit, Small};
ghost use Rattle.codec.specs.Steps.{ByteAt, ReadsAt, ReadsAll};

// The byte at a place, wide enough to be summed; none behind the end.
fn byte_at(s: &[u8], at: usize) -> Option<u32>
    ensures { MatchOption result (length s.now ≤ at) (λ x. ByteAt s.now at x) }
{
    Some(u32::from(*s.get(at)?))
}

// The number at a place, and the place behind it; none where the bytes there are no number.
// The bytes are lent whole, with a place, in all these functions: clauses speak of what stands from there on.
pub fn read(s: &[u8], at: usize) -> Option<(u32, usize)>
    ensures { ReadsAt s.now at result }
{
    let low = byte_at(s, at)?;
    if low < 128 {
        return Some((low, at + 1));
    }
    let mid = byte_at(s, at + 1)?;
    if mid == 0 {
        return None;
    }
    if mid < 128 {
        return Some(((low - 128) + 128 * mid, at + 2));
    }
    let high = byte_at(s, at + 2)?;
    if (1..128).contains(&high) {
        return Some(((low - 128) + 128 * ((mid - 128) + 128 * high), at + 3));
    }
    None
}

// As many numbers as the list has, one behind another from a place on; the place behind them, or none where one is no number.
pub fn read_all(s: &[u8], mut at: usize, numbers: &mut [u32]) -> Option<usize>
    requires { at ≤ length s.now }
    ensures { ReadsAll s.now at numbers.new result }
{
    for n in numbers.iter_mut() {
        let (value, end) = read(s, at)?;
        *n = value;
        at = end;
    }
    Some(at)
}

// How many bytes a number takes.
#[tactic(auto, using(crate::proofs::Groups::number_lengths))]
pub fn size(n: u32) -> usize
    requires { n < number_limit }
    ensures { result ≡ length (encode_number n) }
{
    match n {
        0..=127 => 1,
        128..=16383 => 2,
        _ => 3,
    }
}

// A number put at a place; the place behind it.
// The buffer is lent whole, and not what is left of it: callers cite what stands in all of it.
#[tactic(auto, using(crate::proofs::Groups::number_lengths))]
pub fn write(out: &mut [u8], at: usize, n: u32) -> usize
    requires n_lt_number_limit { n < number_limit }
    requires n_in_bounds { at + length (encode_number n) ≤ length out.old }
    ensures { Writes out.old at (encode_number n) result out.new }
{
    if n < 128 {
        out[at] = n as u8;
        return at + 1;
    }
    if n < 16384 {
        out[at] = 128 + (n % 128) as u8;
        out[at + 1] = (n / 128) as u8;
        return at + 2;
    }
    out[at] = 128 + (n % 128) as u8;
    out[at + 1] = 128 + (n / 128 % 128) as u8;
    out[at + 2] = (n / 16384) as u8;
    at + 3
}

// How many bytes some numbers take.
pub fn size_all(numbers: &[u32]) -> usize
    requires small { Small numbers.now }
    requires numbers_len_bound { length numbers.now ≤ number_limit }
    ensures { result ≡ length (encode_numbers numbers.now) }
{
    let mut bytes = 0;
    for n in numbers {
        bytes += size(*n);
    }
    bytes
}

// Numbers put at a place, one behind another; the place behind them.
pub fn write_all(numbers: &[u32], out: &mut [u8], mut at: usize) -> usize
    requires small { Small numbers.now }
    requires numbers_in_bounds { at + length (encode_numbers numbers.now) ≤ length out.old }
    ensures { Writes out.old at (encode_numbers numbers.now) result out.new }
{
    for n in numbers {
        at = write(out, at, *n);
    }
    at
}
