//! Whether the numbers of a line fit.
ghost use Rattle.std.specs.Prelude.{◌≡◌, ◌+◌, ◌<◌, ◌≤◌, length, decimal, MatchOption};
ghost use Rattle.lines.specs.Lines.{numbers};

/// How many numbers are added up at a time: so few that their length fits a `u16`, in which eight are added at once.
const PART: usize = 1024;

/// How much of the room is left behind the numbers, each after a space; none where they do not fit.
pub(crate) fn room_after(room: usize, row: &[u16]) -> Option<usize>
    ensures { MatchOption result (room < length (numbers row.now)) (λ left. left + length (numbers row.now) ≡ room) }
{
    let mut left = room;
    let mut rest = row;
    while !rest.is_empty() {
        let (part, behind) = rest.split_at(rest.len().min(PART));
        left = left.checked_sub(usize::from(length_of(part)))?;
        rest = behind;
    }
    Some(left)
}

/// How long the numbers of a part are, each after a space.
fn length_of(part: &[u16]) -> u16
    requires { length part.now ≤ 1024 }
    ensures { result ≡ length (numbers part.now) }
{
    let mut length = 0;
    for number in part {
        length += length_with_space(*number);
    }
    length
}

/// How long a number is after a space.
fn length_with_space(number: u16) -> u16
    ensures value { result ≡ 1 + length (decimal number) }
    ensures small { result ≤ 6 }
{
    2 + u16::from(number >= 10)
        + u16::from(number >= 100)
        + u16::from(number >= 1000)
        + u16::from(number >= 10_000)
}
