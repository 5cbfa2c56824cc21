//! Numbers put into a line, where there is room for them.
ghost use Rattle.lines.specs.Lines.{numbers, three_digits, Puts};
ghost use Rattle.std.specs.Prelude.{◌≡◌, ◌+◌, ◌<◌, ◌≤◌, ◌∷◌, [], length, take, decimal};

/// A space and a number below 128, in four bytes each: most numbers are steps, and four bytes are put at once.
static PIECES: [u8; 512] = *b" \
        0   1   2   3   4   5   6   7   8   9   10  11  12  13  14  15  16  17  18  19  \
        20  21  22  23  24  25  26  27  28  29  30  31  32  33  34  35  36  37  38  39  \
        40  41  42  43  44  45  46  47  48  49  50  51  52  53  54  55  56  57  58  59  \
        60  61  62  63  64  65  66  67  68  69  70  71  72  73  74  75  76  77  78  79  \
        80  81  82  83  84  85  86  87  88  89  90  91  92  93  94  95  96  97  98  99  \
        100 101 102 103 104 105 106 107 108 109 110 111 112 113 114 115 116 117 118 119 \
        120 121 122 123 124 125 126 127";

/// Puts each number after a space, from a position on, and answers where they end.
pub(crate) fn put_numbers(line: &mut [u8], begin: usize, row: &[u16]) -> usize
    requires { begin + length (numbers row.now) ≤ length line.old }
    ensures { Puts (numbers row.now) line.old begin line.new result }
{
    let mut end = begin;
    for number in row {
        end = put_after_space(line, end, *number);
    }
    end
}

/// Puts a space and a number, and answers where it ends.
fn put_after_space(line: &mut [u8], begin: usize, number: u16) -> usize
    requires { begin + 1 + length (decimal number) ≤ length line.old }
    ensures { Puts (32 ∷ decimal number) line.old begin line.new result }
{
    if number < 128 && line.len() - begin >= 4 {
        put_piece(line, begin, number)
    } else {
        line[begin] = b' ';
        put_number(line, begin + 1, number)
    }
}

/// Puts the piece of a number. What is too many of its four bytes is written over by what comes next.
fn put_piece(line: &mut [u8], begin: usize, number: u16) -> usize
    requires small { number < 128 }
    requires room { begin + 4 ≤ length line.old }
    ensures { Puts (32 ∷ decimal number) line.old begin line.new result }
{
    let (space, first, second, third) = piece_of(number);
    line[begin] = space;
    line[begin + 1] = first;
    line[begin + 2] = second;
    line[begin + 3] = third;
    begin + 2 + usize::from(number >= 10) + usize::from(number >= 100)
}

/// The four bytes of a number's piece.
fn piece_of(number: u16) -> (u8, u8, u8, u8)
    requires { number < 128 }
    ensures { take (1 + length (decimal number)) (result.0 ∷ result.1 ∷ result.2 ∷ result.3 ∷ [])
        ≡ 32 ∷ decimal number }
{
    let i = 4 * usize::from(number);
    (PIECES[i], PIECES[i + 1], PIECES[i + 2], PIECES[i + 3])
}

/// Puts a number, and answers where it ends. Steps have three digits at most.
fn put_number(line: &mut [u8], begin: usize, number: u16) -> usize
    requires { begin + length (decimal number) ≤ length line.old }
    ensures { Puts (decimal number) line.old begin line.new result }
{
    if number < 1000 {
        put_short(line, begin, number)
    } else {
        let end = put_short(line, begin, number / 1000);
        put_three(line, end, number % 1000)
    }
}

/// Puts a number of three digits at most. Each digit is put down, and a zero in front is written over by the next
/// one: which of the lengths it is would be guessed wrong too often.
fn put_short(line: &mut [u8], begin: usize, number: u16) -> usize
    requires small { number < 1000 }
    requires room { begin + length (decimal number) ≤ length line.old }
    ensures { Puts (decimal number) line.old begin line.new result }
{
    let rest = number % 100;
    line[begin] = digit(number / 100);
    let tens = begin + usize::from(number >= 100);
    line[tens] = digit(rest / 10);
    let ones = tens + usize::from(number >= 10);
    line[ones] = digit(rest % 10);
    ones + 1
}

/// Puts three digits, zeros in front too.
fn put_three(line: &mut [u8], begin: usize, number: u16) -> usize
    requires small { number < 1000 }
    requires room { begin + 3 ≤ length line.old }
    ensures { Puts (three_digits number) line.old begin line.new result }
{
    let rest = number % 100;
    line[begin] = digit(number / 100);
    line[begin + 1] = digit(rest / 10);
    line[begin + 2] = digit(rest % 10);
    begin + 3
}

/// The character of a digit.
fn digit(number: u16) -> u8
    requires { number < 10 }
    ensures { result ≡ 48 + number }
{
    b'0' + number as u8
}
