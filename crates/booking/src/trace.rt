ghost use Rattle.std.specs.Prelude.{◌≡◌, ◌-◌, ◌≤◌, length, drop, replicate, pos};

mod steps;

/// How many names there are.
pub const NAMES: u64 = 64;

/// A name, 1 to 64, and at most three subscripts. A trace is moved and never copied. Its subscripts are an array and a count, and no vector
/// of fixed capacity, since it is a rule that those not used are 0, and a vector has none to say it of.
#[derive(Debug, Drop)]
pub struct Trace {
    name: u8,
    depth: u8,
    at: [i32; 3],
    ghost lawful: { (1 ≤ name) × (name ≤ 64) × (depth ≤ 3) × (length at ≡ 3) × (drop depth at ≡ replicate (3 - depth) (pos 0)) },
}
