//! Sums of numbered terms.
ghost use Rattle.std.specs.Prelude.{◌≡◌, ℕ, ◌^◌, ◌<◌};
ghost use Rattle.theory.specs.Sums.{sum_to};

/// The sum of the terms with a number below `end`.
pub fn sum_below<F: Fn(u16) -> u32>(end: u16, term: F) -> u64
    requires { (k : ℕ) → k < end → F.pre term k }
    ensures answer { (f : ℕ → ℕ) → ((k r : ℕ) → k < end → F.post term k r → r ≡ f k) →
        result ≡ sum_to f end }
    ensures bound { result < 2 ^ 48 }
{
    let mut sum = 0u64;
    for number in 0..end {
        sum += u64::from(term(number));
    }
    sum
}
