//! The lines of a table, and how many of their answers agree.
ghost use Rattle.std.specs.Prelude.{◌≡◌, ◌≢◌, ◌<◌, ◌≤◌, ◌+◌, ◌-◌, Ok, None, IfOk};
ghost use Rattle.std.specs.Prelude.{IfSome, min, length, drop, [], ◌∷◌, true, false, ℕ, List};
ghost use Rattle.comparisons.specs.Counted.{one_more};
ghost use Rattle.comparisons.specs.Sides.{HasSides};

/// A line of a table.
#[derive(Clone, Copy)]
pub struct Line<'a> {
    pub text: &'a str,
}

impl<'a> From<&'a str> for Line<'a> {
    ghost from_gives = { λ text line. line.text.now ≡ text.now };

    fn from(text: &'a str) -> Line<'a> {
        Line { text }
    }
}

// Both sides are found when they are asked for, so that a line of a long table takes no more than its text.
impl<'a> Line<'a> {
    /// The two sides of the first ` = `; no answer where there is none.
    fn sides(self) -> (&'a str, &'a str)
        ensures { HasSides self.entry.text.now result.0.now result.1.now }
    {
        self.text.split_once(" = ").unwrap_or((self.text, ""))
    }

    /// What the line asks for.
    pub fn asked(self) -> &'a str
        ensures { (expected : List ℕ) × HasSides self.entry.text.now result.now expected }
    {
        self.sides().0
    }

    /// The answer that stands in the line.
    pub fn expected(self) -> &'a str
        ensures { (asked : List ℕ) × HasSides self.entry.text.now asked result.now }
    {
        self.sides().1
    }
}

/// How many answers agree with the table, and how many differ.
#[derive(Clone, Copy, Default)]
pub struct Comparison {
    pub agreed: u32,
    pub differing: u32,
}

/// The next line and those after it; an empty line where none is left.
pub fn next_line<'a>(lines: &'a [Line<'a>]) -> (Line<'a>, &'a [Line<'a>])
    ensures first { 0 < length lines.now → lines.now ≡ result.0 ∷ result.1.now }
    ensures empty { lines.now ≡ [] → result.0.text.now ≡ [] }
    ensures others { result.1.now ≡ drop 1 lines.now }
{
    match lines {
        [line, left @ ..] => (*line, left),
        [] => (Line::from(""), lines),
    }
}

/// Compares the lines, those of one part after the other, up to where the closure compares none; gives how many are
/// left from there on.
pub fn compare_all<'a, E: Drop, F: FnMut(&Line<'a>, &'a [Line<'a>]) -> Result<Option<usize>, E>>(
    lines: &'a [Line<'a>],
    mut compare: F,
) -> Result<usize, E>
    requires callable { F.IsAlwaysCallable compare }
    requires fewer { (state : F) (line : _) (others : _) (r : _) (after : F) →
        F.step state line others r after → IfOk r (λ left. IfSome left (λ left. left ≤ length others.now)) }
    ensures within { IfOk result (λ left. left ≤ length lines.now) }
    ensures stopped { IfOk result (λ left. 0 < left →
        (state : F) × (line : _) × (others : _) × (after : F) × F.step state line others (Ok None) after
        × (drop (length lines.now - left) lines.now ≡ line.now ∷ others.now)) }
{
    // a count and no slice: the borrow checker does not cover a loop whose slice is what a call gave
    let mut left = lines.len();
    while let [first, others @ ..] = &lines[lines.len() - left..] {
        let Some(after) = compare(first, others)? else {
            break;
        };
        left = after;
    }
    Ok(left)
}

impl Comparison {
    /// Counts a line of the table by whether the answer in it is the one here, and says whether it is.
    pub fn compare(&mut self, expected: &str, here: &str) -> bool
        ensures agrees { here.now ≡ expected.now → (result ≡ true)
            × (self.new ≡ record self.old { agreed = one_more self.old.agreed }) }
        ensures differs { here.now ≢ expected.now → (result ≡ false)
            × (self.new ≡ record self.old { differing = one_more self.old.differing }) }
    {
        let is_same = here == expected;
        if is_same {
            self.agreed = self.agreed.saturating_add(1);
        } else {
            self.differing = self.differing.saturating_add(1);
        }
        is_same
    }

    /// How many lines were compared.
    pub fn compared(&self) -> u32
        ensures { result ≡ min (self.now.agreed + self.now.differing) 4294967295 }
    {
        self.agreed.saturating_add(self.differing)
    }
}
