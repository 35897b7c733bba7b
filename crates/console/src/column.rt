// A column: a decimal number, right-justified with blanks, pushed to a text that has room for it. The loop, the room and the bytes stay
// for speed, as `push_row` says.
ghost use Rattle.std.specs.Prelude.{◌≡◌, ◌+◌, ◌≤◌, ◌++◌, length, replicate, vec_len, vec_capacity};
ghost use Rattle.console.specs.Column.{column};

// Adds so many blanks.
fn push_blanks(text: &mut Vec<u8>, count: usize)
    requires { vec_len text.old + count ≤ vec_capacity text.old }
    ensures items { text.new.items ≡ text.old.items ++ replicate count 32 }
    ensures len { vec_len text.new ≡ vec_len text.old + count }
    ensures capacity { vec_capacity text.new ≡ vec_capacity text.old }
{
    for _i in 0..count {
        text.push_reserved(b' ');
    }
}

// Adds a number in a column. The digits before the last stand in a column that is one narrower.
// No column is longer than ten: no width is, and no `u32` has more digits.
pub(crate) fn push_column(text: &mut Vec<u8>, width: usize, value: u32)
    requires narrow { width ≤ 10 }
    requires room { vec_len text.old + 10 ≤ vec_capacity text.old }
    ensures items { text.new.items ≡ text.old.items ++ column width value }
    ensures len { vec_len text.new ≡ vec_len text.old + length (column width value) }
    ensures within { vec_len text.new ≤ vec_len text.old + 10 }
    ensures capacity { vec_capacity text.new ≡ vec_capacity text.old }
{
    let before = width.saturating_sub(1);
    if value < 10 {
        push_blanks(text, before);
    } else {
        push_column(text, before, value / 10);
    }
    text.push_reserved(b'0' + (value % 10) as u8);
}
