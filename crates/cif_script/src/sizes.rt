// What the lines of a script count.
ghost use Rattle.std.specs.Prelude.{◌≡◌, ◌+◌, ◌*◌, ◌-◌, ◌^◌, length, min, nat_lt, true};
ghost use Rattle.std.specs.List.{list_all};
ghost use Rattle.cif_defs.specs.Text.{coded, coded_byte};
ghost use Rattle.cif_script.specs.Scripts.{is_line_inside, is_inside, line_size as size_of_line, session_size as size_of_session, script_size as size_of_script, script_limit};

use crate::script::Script;
use crate::session::{Line, SessionScript};
use cif_defs::Wire;

/// The most that the lines of a script count together.
const SCRIPT_LIMIT: u64 = 268_435_456;

/// What a line that shows nothing counts.
const PLAIN_SIZE: u64 = 96;

/// How many bytes code a byte of a name.
fn byte_length(byte: u8) -> u64
    ensures { result ≡ length (coded_byte byte) }
{
    if byte >= 33 && byte <= 126 && byte != b'%' {
        1
    } else {
        3
    }
}

/// How many bytes code a name, or the most that a `u64` holds.
#[tactic(auto, unfolding(cif_defs::specs::Text::coded))]
fn coded_length(name: &[u8]) -> u64
    ensures { result ≡ min (length (coded name.now)) (2 ^ 64 - 1) }
{
    let mut length = 0u64;
    for byte in name {
        length = length.saturating_add(byte_length(*byte));
    }
    length
}

/// What a line that shows a wire counts, or the most that a `u64` holds.
fn shown_size(wire: &Wire) -> u64
    ensures { result
        ≡ min (2 * length wire.now.bits + length (coded wire.now.name) + 16) (2 ^ 64 - 1) }
{
    let width = wire.items().len() as u64;
    let length = coded_length(wire.name().items());
    width
        .saturating_add(width)
        .saturating_add(length)
        .saturating_add(16)
}

/// What a line counts, or the most that a `u64` holds.
fn line_size(wires: &[Wire], line: Line) -> u64
    requires { is_line_inside (length wires.now) line ≡ true }
    ensures { result ≡ min (size_of_line wires.now line) (2 ^ 64 - 1) }
{
    match line {
        Line::Show(number) => shown_size(&wires[number as usize]),
        Line::At(_) | Line::Next | Line::Newest => PLAIN_SIZE,
    }
}

/// What a session counts, or the most that a `u64` holds.
fn session_size(wires: &[Wire], session: &SessionScript) -> u64
    requires { is_inside (length wires.now) session.now ≡ true }
    ensures { result ≡ min (size_of_session wires.now session.now) (2 ^ 64 - 1) }
{
    let mut size = PLAIN_SIZE;
    for line in session.lines.items() {
        size = size.saturating_add(line_size(wires, *line));
    }
    size
}

/// What all sessions count with the title, or the most that a `u64` holds.
#[tactic(auto, unfolding(crate::specs::Scripts::script_size))]
fn script_size(wires: &[Wire], sessions: &[SessionScript]) -> u64
    requires { list_all (is_inside (length wires.now)) sessions.now ≡ true }
    ensures { result
        ≡ min (size_of_script (record { sessions = sessions.now; wires = wires.now })) (2 ^ 64 - 1) }
{
    let mut size = PLAIN_SIZE;
    for session in sessions {
        size = size.saturating_add(session_size(wires, session));
    }
    size
}

/// Whether the lines of a script count more than they may.
pub(crate) fn is_too_large(script: &Script) -> bool
    ensures { result ≡ nat_lt script_limit (size_of_script script.now) }
{
    script_size(script.wires(), script.sessions()) > SCRIPT_LIMIT
}
