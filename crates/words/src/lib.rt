// Planes by whole words, without a plan: whether they are in order, how many bits are set, and planes whose first bits are.
#![tactic(auto)]

ghost use Rattle.std.specs.Prelude.{◌≡◌, ◌≤◌, length};
ghost use Rattle.facts.specs.Bounded.{every, sum};
ghost use Rattle.planes.specs.Bits.{words_for, word_from, plane_of, no_spare, in_order, active_ones, ones_at};
ghost use Rattle.words.specs.Words.{word_within, below};

// Whether no word of refined cells has a cell that is absent.
fn is_within(present: &[u64], refined: &[u64]) -> bool
    requires { length refined.now ≡ length present.now }
    ensures { result ≡ every (length present.now) (word_within present.now refined.now) }
{
    let mut ok = true;
    for (w, held) in present.iter().enumerate() {
        ok = (refined[w] & *held == refined[w]) & ok;
    }
    ok
}

// Whether the bits after the last cell are 0.
fn has_no_spare(plane: &[u64], total: usize) -> bool
    requires { length plane.now ≡ words_for total }
    ensures { result ≡ no_spare total plane.now }
{
    let over = total % 64;
    if over == 0 {
        return true;
    }
    plane[total / 64] >> over == 0
}

// Whether planes of so many cells are in order. No bit after the last cell is refined if none is present there.
pub fn in_order(present: &[u64], refined: &[u64], total: usize) -> bool
    requires { (length present.now ≡ words_for total) × (length refined.now ≡ words_for total) }
    ensures { result ≡ in_order total present.now refined.now }
{
    is_within(present, refined) & has_no_spare(present, total)
}

// How many cells are active.
pub fn count_active(present: &[u64], refined: &[u64]) -> u32
    requires { (length refined.now ≡ length present.now) × (length present.now ≤ 65536) }
    ensures { result ≡ sum (length present.now) (active_ones present.now refined.now) }
{
    let mut count = 0;
    for (w, held) in present.iter().enumerate() {
        count += (*held & !refined[w]).count_ones();
    }
    count
}

// How many bits of a plane are set.
pub fn count_set(plane: &[u64]) -> u32
    requires { length plane.now ≤ 65536 }
    ensures { result ≡ sum (length plane.now) (ones_at plane.now) }
{
    plane.iter().map(|word| word.count_ones()).sum()
}

// The word of the bits from `at` on in a plane of which the first bits are set.
fn fresh_word(first: usize, at: usize) -> u64
    ensures { result ≡ word_from 64 at (below first) }
{
    // Most words have none. With saturating_sub the compiler shifts for each, two at a time, and takes a quarter longer.
    let Some(left) = first.checked_sub(at) else {
        return 0;
    };
    if 64 <= left {
        return u64::MAX;
    }
    (1 << left) - 1
}

// The first bits are set, and no other.
pub fn fresh(plane: &mut [u64], first: usize)
    requires { length plane.old ≤ 65536 }
    ensures { plane.new ≡ plane_of (length plane.old) (below first) }
{
    for (w, word) in plane.iter_mut().enumerate() {
        *word = fresh_word(first, 64 * w);
    }
}
