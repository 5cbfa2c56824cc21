//! The least of numbered things that passes a test.
ghost use Rattle.std.specs.Prelude.{◌≡◌, ℕ, ◌<◌, Bool, IfSome};
ghost use Rattle.theory.specs.Tests.{least};

/// The least number below `end` that passes the test.
pub fn least_below<F: Fn(u16) -> bool>(end: u16, test: F) -> Option<u16>
    requires { (k : ℕ) → k < end → F.pre test k }
    ensures answer { (p : ℕ → Bool) → ((k : ℕ) (b : Bool) → k < end → F.post test k b →
        b ≡ p k) → result ≡ least p end }
    ensures below { IfSome result (λ k. k < end) }
{
    for number in 0..end {
        if test(number) {
            return Some(number);
        }
    }
    None
}
