// What the two tables of a mesh mean. The definitions are in specs/, the theorems about them in proofs/; the calls are in other crates.
#![tactic(auto)]

ghost use Rattle.std.specs.Prelude.{◌≡◌};
ghost use Rattle.mesh.specs.Answers.{count_of};

use refusals::Refusal;

// What count answers where the tables are not refused.
// The bytes of tables are C's, in all crates: 0, 1 and 2 and no enum.
#[derive(Clone, Copy)]
pub struct Counts {
    // active cells, refined cells, active functions
    pub active: u32,
    pub refined: u32,
    pub functions: u32,
    // in cells of the last level
    pub area: u32,
}

// The same for C, which has no enum that holds a value: a refusal or 0, and the counts, all 0 with a refusal.
#[repr(C)]
#[derive(Clone, Copy, Default)]
pub struct Count {
    pub number: u32,
    pub active: u32,
    pub refined: u32,
    pub functions: u32,
    pub area: u32,
}

impl From<Result<Counts, Refusal>> for Count {
    ghost from_gives = { λ answer count. count ≡ count_of answer };

    fn from(answer: Result<Counts, Refusal>) -> Count {
        match answer {
            Ok(counts) => Count {
                number: 0,
                active: counts.active,
                refined: counts.refined,
                functions: counts.functions,
                area: counts.area,
            },
            Err(refusal) => Count {
                number: u32::from(refusal),
                ..Count::default()
            },
        }
    }
}
