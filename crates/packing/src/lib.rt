// The bytes of the cells of two planes, and the planes of bytes, without a plan. All words are whole: there are 64 bytes to each.
#![tactic(auto)]

ghost use Rattle.std.specs.Prelude.{◌≡◌, ◌+◌, ◌*◌, ◌/◌, ◌%◌, ◌≤◌, ◌<◌, length, get_or};
ghost use Rattle.facts.specs.Mapped.{filled};
ghost use Rattle.mesh.specs.Mesh.{refined as isRefined};
ghost use Rattle.planes.specs.Bits.{bytes_of, Within, word_from, plane_of, is_present, are_small};
ghost use Rattle.packing.specs.Packing.{word_byte, spread_of, Spreads, number_of, packed_of, Packs, Small};

// The bytes of four bits, as one number. The table is lent: a constant would be laid down anew at each use.
// That the table is the right one stands in three clauses, and not in a type: the compiler sees through an array alone.
fn spread(table: &[u64; 16], bits: u64) -> u64
    requires bits_bound { bits < 16 }
    requires spreads { Spreads table.now }
    ensures { result ≡ spread_of bits }
{
    let i = bits as usize;
    table[i]
}

// The bytes of four cells, as one number.
fn spread_cells(table: &[u64; 16], present: u64, refined: u64) -> u64
    requires present_bound { (present < 16) × (refined < 16) }
    requires spreads { Spreads table.now }
    ensures { result ≡ spread_of present + spread_of refined }
{
    spread(table, present) + spread(table, refined)
}

fn byte_of(bytes: u64, unit: u64) -> u8
    requires { 1 ≤ unit }
    ensures { result ≡ bytes / unit % 256 }
{
    (bytes / unit % 256) as u8
}

// The bytes of 64 cells, four at a time: the compiler makes one store of four.
fn unpack_word(table: &[u64; 16], present: u64, refined: u64, part: &mut [u8])
    requires in_bounds { 64 ≤ length part.old }
    requires spreads { Spreads table.now }
    ensures { part.new ≡ filled 0 64 (word_byte present refined) part.old }
{
    let mut p = present;
    let mut r = refined;
    // by fours and no chunks, so that the compiler makes one store of four
    for four in 0..16 {
        let at = 4 * four;
        let bytes = spread_cells(table, p % 16, r % 16);
        part[at] = byte_of(bytes, 1);
        part[at + 1] = byte_of(bytes, 256);
        part[at + 2] = byte_of(bytes, 65536);
        part[at + 3] = byte_of(bytes, 16777216);
        p = p / 16;
        r = r / 16;
    }
}

// The bytes of all cells that two planes have bits for.
pub fn unpack(present: &[u64], refined: &[u64], bytes: &mut [u8])
    requires refined_len { (length refined.now ≡ length present.now) × (length bytes.old ≡ 64 * length present.now) }
    requires within { Within present.now refined.now }
    ensures { bytes.new ≡ bytes_of (64 * length present.now) present.now refined.now }
{
    let table = [
        0u64, 1, 256, 257, 65536, 65537, 65792, 65793, 16777216, 16777217, 16777472, 16777473,
        16842752, 16842753, 16843008, 16843009,
    ];
    for (w, held) in present.iter().enumerate() {
        unpack_word(&table, *held, refined[w], &mut bytes[64 * w..]);
    }
}

// A word of each plane.
#[derive(Clone, Copy)]
pub struct Pair {
    pub present: u64,
    pub refined: u64,
}

// The byte of a cell, at most 2.
fn cell(bytes: &[u8], at: usize) -> u64
    requires { (at < length bytes.now) × Small bytes.now }
    ensures { (result ≡ get_or bytes.now at 0) × (result ≤ 2) }
{
    u64::from(bytes[at])
}

// Four bytes as a number of base 3. The compiler loads them at once. The bytes of the factor are 27, 9, 3 and 1, from the lowest on, so the
// fourth byte of the product is that number.
// The bytes are lent whole, with a place, so that one test of bounds serves four.
fn number_of(bytes: &[u8], at: usize) -> usize
    requires { (at + 4 ≤ length bytes.now) × Small bytes.now }
    ensures { (result < 81) × (result ≡ number_of bytes.now at) }
{
    let four = cell(bytes, at)
        + 256 * cell(bytes, at + 1)
        + 65536 * cell(bytes, at + 2)
        + 16777216 * cell(bytes, at + 3);
    (four * 16976155 / 16777216 % 256) as usize
}

// The bits of the four cells from a number on: those of the first plane, and 16 times those of the second.
fn bits_at(table: &[u8; 81], bytes: &[u8], at: usize) -> u64
    requires at_in_bounds { (at + 4 ≤ length bytes.now) × Small bytes.now }
    requires packs { Packs table.now }
    ensures { result ≡ packed_of bytes.now at }
{
    let i = number_of(bytes, at);
    u64::from(table[i])
}

// The words of the 64 cells from a number on: four at a time, from the last to the first.
fn pack_word(table: &[u8; 81], bytes: &[u8], at: usize) -> Pair
    requires at_in_bounds { (at + 64 ≤ length bytes.now) × Small bytes.now }
    requires packs { Packs table.now }
    ensures { (result.present ≡ word_from 64 at (is_present bytes.now)) × (result.refined ≡ word_from 64 at (isRefined bytes.now)) }
{
    let mut present = 0;
    let mut refined = 0;
    for four in (0..16).rev() {
        let bits = bits_at(table, bytes, at + 4 * four);
        present = bits % 16 + 16 * present;
        refined = bits / 16 + 16 * refined;
    }
    Pair { present, refined }
}

// The planes of all bytes.
pub fn pack(bytes: &[u8], present: &mut [u64], refined: &mut [u64])
    requires refined_len { (length refined.old ≡ length present.old) × (length bytes.now ≡ 64 * length present.old) }
    requires small { Small bytes.now }
    ensures { (present.new ≡ plane_of (length present.old) (is_present bytes.now)) × (refined.new ≡ plane_of (length present.old) (isRefined bytes.now)) }
{
    // For each number below 81, in hexadecimal: four bits of `refined`, then four of `present`.
    let table =
        b"\x00\x01\x11\x02\x03\x13\x22\x23\x33\x04\x05\x15\x06\x07\x17\x26\x27\x37\x44\x45\x55\x46\x47\x57\x66\x67\x77\x08\x09\x19\x0a\x0b\x1b\x2a\x2b\x3b\x0c\x0d\x1d\x0e\x0f\x1f\x2e\x2f\x3f\x4c\x4d\x5d\x4e\x4f\x5f\x6e\x6f\x7f\x88\x89\x99\x8a\x8b\x9b\xaa\xab\xbb\x8c\x8d\x9d\x8e\x8f\x9f\xae\xaf\xbf\xcc\xcd\xdd\xce\xcf\xdf\xee\xef\xff";
    // by index, since two planes are written side by side
    for w in 0..present.len() {
        let pair = pack_word(table, bytes, 64 * w);
        present[w] = pair.present;
        refined[w] = pair.refined;
    }
}

// Whether no byte is above 2.
pub fn are_small(cells: &[u8]) -> bool
    ensures { result ≡ are_small cells.now }
{
    let mut ok = true;
    for cell in cells {
        ok = (*cell <= 2) & ok;
    }
    ok
}
