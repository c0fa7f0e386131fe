// The widths of cells that select and shift.
ghost use Rattle.std.specs.Prelude.{◌≤◌, ◌<◌, ◌*◌, ◌^◌};

/// How many bits A, B and Y of a shift have, 1 to 128 each, and which of A and B are signed.
#[derive(Clone, Copy, Drop)]
pub struct Shift {
    pub a: u32,
    pub b: u32,
    pub y: u32,
    pub a_signed: bool,
    pub b_signed: bool,
    pub ghost some_a: { 1 ≤ a },
    pub ghost some_b: { 1 ≤ b },
    pub ghost some_y: { 1 ≤ y },
    pub ghost limit_a: { a ≤ 128 },
    pub ghost limit_b: { b ≤ 128 },
    pub ghost limit_y: { y ≤ 128 },
}

/// Blocks of so many bits, one for each number of so many select bits: together 1 to 128 bits.
#[derive(Clone, Copy, Drop)]
pub struct Blocks {
    pub width: u32,
    pub selects: u32,
    pub ghost some: { 1 ≤ width },
    pub ghost limit: { width * 2 ^ selects ≤ 128 },
}

/// Blocks of so many bits, one for each select bit: together 1 to 128 bits, and as many select bits.
#[derive(Clone, Copy, Drop)]
pub struct Chain {
    pub width: u32,
    pub selects: u32,
    pub ghost some: { 1 ≤ width },
    pub ghost some_selects: { 1 ≤ selects },
    pub ghost limit: { width * selects ≤ 128 },
}

/// The digits of a table, one for each number of so many address bits, lowest number lowest: at most 128 digits.
#[derive(Clone, Copy, Drop)]
pub struct Table {
    pub address: u32,
    pub digits: u128,
    pub ghost few: { address ≤ 7 },
    pub ghost fits: { digits < 2 ^ (2 ^ address) },
}
