// The interrupt lines, as a set of 32 bits: bit n is line n.
ghost use Rattle.std.specs.Prelude.{◌≡◌, ℕ, ◌<◌, ◌≤◌, true, false, if◌then◌else◌, nat_eq};
ghost use Rattle.state.specs.Lines.{is_raised, with_line_raised, with_line_dropped, served_line, vector_of, Lowest};

use alu::bits::{clear_bit, is_bit_set, set_bit};

// Whether a line is raised.
pub fn is_raised(lines: u32, line: u32) -> bool
    ensures { result ≡ is_raised lines line }
{
    is_bit_set(lines, line)
}

// Raising and dropping are a call each: one function over a flag would choose between the same two calls.

// The set with a line raised. A line from 32 on does not exist.
pub fn with_raised(lines: u32, line: u32) -> u32
    ensures value { result ≡ with_line_raised lines line }
    ensures raised { line < 32 → (other : ℕ) → is_raised result other ≡ (if nat_eq other line then true else is_raised lines other) }
{
    set_bit(lines, line)
}

// The set with a line dropped.
pub fn with_dropped(lines: u32, line: u32) -> u32
    ensures value { result ≡ with_line_dropped lines line }
    ensures dropped { line < 32 → (other : ℕ) → is_raised result other ≡ (if nat_eq other line then false else is_raised lines other) }
{
    clear_bit(lines, line)
}

// The line that is served: the lowest one raised.
fn served_line(lines: u32) -> u32
    ensures { result ≡ served_line lines }
{
    lines.trailing_zeros()
}

// Where a line's vector stands.
fn vector(line: u32) -> u16
    requires { line ≤ 32 }
    ensures { result ≡ vector_of line }
{
    65534 - 2 * line as u16
}

// The vector of the line that is served.
pub fn served_vector(lines: u32) -> u16
    ensures value { result ≡ vector_of (served_line lines) }
    ensures lowest { 0 < lines → Lowest lines (served_line lines) }
{
    vector(served_line(lines))
}
