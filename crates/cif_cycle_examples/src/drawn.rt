// Stimuli that are drawn.

use std::alloc::{AllocError, Global};

/// Numbers that are drawn, always the same ones for a seed: the high 31 bits of `x`, which each draw makes
/// `x * 6364136223846793005 + 1442695040888963407` modulo 2^64. The first `x` is the seed.
#[derive(Drop)]
struct Draw {
    x: u64,
}

impl Draw {
    /// Whether a draw is a multiple of a number: about one in so many is.
    fn is_one_in(&mut self, many: u64) -> bool {
        self.x = self
            .x
            .wrapping_mul(6_364_136_223_846_793_005)
            .wrapping_add(1_442_695_040_888_963_407);
        (self.x >> 33) % many.max(1) == 0
    }
}

/// A space and binary digits, of which about one in so many is 1.
fn push_digits(
    draw: &mut Draw,
    text: &mut String,
    width: u64,
    many: u64,
) -> Result<(), AllocError> {
    text.push(' ')?;
    for _ in 0..width {
        let digit = if draw.is_one_in(many) { '1' } else { '0' };
        text.push(digit)?;
    }
    Ok(())
}

/// The input ports, but the clock and `place`, which is never tainted.
const PORTS: [(&str, u64); 5] = [
    ("control", 4),
    ("in0", 3),
    ("in1", 3),
    ("in2", 3),
    ("in3", 3),
];

/// Sets a port to a word.
fn push_set(draw: &mut Draw, text: &mut String, name: &str, width: u64) -> Result<(), AllocError> {
    text.push_str("set ")?;
    text.push_str(name)?;
    push_digits(draw, text, width, 2)
}

/// Sets a port to a word, of which about one bit in 32 is tainted.
fn push_tainted(
    draw: &mut Draw,
    text: &mut String,
    name: &str,
    width: u64,
) -> Result<(), AllocError> {
    push_set(draw, text, name, width)?;
    push_digits(draw, text, width, 32)?;
    text.push('\n')
}

/// The sets of a cycle.
fn push_sets(draw: &mut Draw, text: &mut String, one_in: u64) -> Result<(), AllocError> {
    for (name, width) in PORTS {
        if draw.is_one_in(one_in) {
            push_tainted(draw, text, name, width)?;
        }
    }
    if draw.is_one_in(one_in) {
        push_set(draw, text, "place", 6)?;
        text.push('\n')?;
    }
    Ok(())
}

/// A stimulus of some cycles, in each of which about one port in so many is set.
pub fn drawn_stimulus(
    alloc: Global,
    cycles: u64,
    seed: u64,
    one_in: u64,
) -> Result<String, AllocError> {
    let mut text = format!(in alloc; "cellift-stimulus 2\ncycles {cycles}\nrelease freed\n")?;
    let mut draw = Draw { x: seed };
    for cycle in 0..cycles {
        let line = format!(in alloc; "@ {cycle}\n")?;
        text.push_str(&line)?;
        push_sets(&mut draw, &mut text, one_in)?;
    }
    Ok(text)
}
