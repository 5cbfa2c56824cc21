//! One number for many: FNV-1a of 32 bits.
ghost use Rattle.std.specs.Prelude.{◌≡◌, ℕ, map};
ghost use Rattle.comparisons.specs.Digests.{after_bytes, after_number, after_numbers, first_value, number_factor};

const START: u32 = 2_166_136_261;

const FACTOR: u32 = 16_777_619;

/// A digest of what was added so far.
#[derive(Clone, Copy)]
pub struct Digest {
    pub value: u32,
}

impl Digest {
    /// The digest of nothing.
    pub fn new() -> Digest
        ensures { result.value ≡ first_value }
    {
        Digest { value: START }
    }

    /// The digest of numbers, each with four bytes.
    pub fn of<T: Copy + Into<u32>>(numbers: &[T]) -> Digest
        ensures { (n : T → ℕ) → ((t : T) (k : ℕ) → T.converts t k → k ≡ n t) →
            result.value ≡ after_numbers first_value (map n numbers.now) }
    {
        let mut digest = Digest::new();
        digest.add_all(numbers);
        digest
    }

    /// Adds bytes.
    pub fn add_bytes(&mut self, bytes: &[u8])
        ensures { self.new.value ≡ after_bytes self.old.value bytes.now }
    {
        self.value = bytes.iter().fold(self.value, |value, byte| {
            (value ^ u32::from(*byte)).wrapping_mul(FACTOR)
        });
    }

    /// Adds the four bytes of a number, low byte first.
    pub fn add(&mut self, number: u32)
        ensures { self.new.value ≡ after_number self.old.value number }
    {
        self.add_bytes(&number.to_le_bytes());
    }

    /// Adds numbers, each with four bytes.
    pub fn add_all<T: Copy + Into<u32>>(&mut self, numbers: &[T])
        ensures { (n : T → ℕ) → ((t : T) (k : ℕ) → T.converts t k → k ≡ n t) →
            self.new.value ≡ after_numbers self.old.value (map n numbers.now) }
    {
        for number in numbers {
            self.add((*number).into());
        }
    }
}
