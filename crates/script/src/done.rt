// What a line does.
ghost use Rattle.std.specs.Prelude.{◌≤◌};
ghost use Rattle.script.specs.Bounds.{answer_bytes};

use crate::Hand;

// What a line leaves in hand, None for no wall, and how many bytes it prints: the buffer has room for them.
#[derive(Clone, Copy)]
pub struct Done {
    pub hand: Option<Hand>,
    pub count: usize,
    pub ghost count_bound: { count ≤ answer_bytes },
}
