//! The bounded list: a list whose memory is its user's, and so is the bound.
#![tactic(auto)]

ghost use Rattle.std.specs.Prelude.{◌≡◌, ℕ, ◌+◌, ◌<◌, ◌≤◌, length, Option};
ghost use Rattle.bounded_list.specs.Lists.{Adds, AddsFound, Gets, WritesRow};

use refusals::Refusal;

/// A list whose elements lie in memory that its user lends it, so that a call which fills it allocates nothing. It
/// holds as many as the memory has entries, and entries that it does not use stay as they were lent.
#[derive(Drop)]
pub struct BoundedList<'a, T> {
    memory: &'a mut [T],
    len: usize,
    ghost within: { len ≤ length memory.now },
}

impl<'a, T: Drop> BoundedList<'a, T> {
    ghost use Rattle.bounded_list.specs.Shown.{len_of, memory_of};

    /// An empty list over the memory, which stays as it is.
    pub fn new(memory: &'a mut [T]) -> BoundedList<'a, T>
        ensures empty { len_of result ≡ 0 }
        ensures memory { memory_of result ≡ memory.old }
        ensures lender { result.memory.ghost_name ≡ memory.entry.ghost_name }
    {
        BoundedList { memory, len: 0 }
    }

    /// How many elements were added.
    pub fn len(&self) -> usize
        ensures { result ≡ len_of self.now }
    {
        self.len
    }

    /// How many more elements fit.
    pub fn room(&self) -> usize
        ensures { result + len_of self.now ≡ length (memory_of self.now) }
    {
        let memory = &*self.memory;
        memory.len() - self.len
    }

    /// The element that was added after `i` others; none where there are no more than `i`.
    pub fn get(&self, i: usize) -> Option<&T>
        ensures { Gets (memory_of self.now) (len_of self.now) i result }
    {
        self.memory[..self.len].get(i)
    }

    /// Appends an element. Refused: `ListFull`, with the list as it was, once each entry of the memory is used.
    // `lender` stands in each call that is lent the list: it is about two values of it, which no field can hold
    pub fn add(&mut self, x: T) -> Result<(), Refusal>
        ensures lender { self.new.memory.ghost_name ≡ self.old.memory.ghost_name }
        ensures adds { Adds x (memory_of self.old) (len_of self.old) result (memory_of self.new) (len_of self.new) }
    {
        if self.len == self.memory.len() {
            return Err(Refusal::ListFull);
        }
        self.memory[self.len] = x;
        self.len += 1;
        Ok(())
    }
}

/// Adds what is found at number 0, then at 1 and so on below `end`. Refused: `ListFull`, with the list as it was,
/// where fewer than `end` entries are free, be it that less would be found.
pub fn add_found<T: Drop, F: Fn(u16) -> Option<T>>(
    list: &mut BoundedList<T>,
    end: u16,
    find: F,
) -> Result<(), Refusal>
    requires { (k : ℕ) → k < end → F.pre find k }
    ensures lender { list.new.memory.ghost_name ≡ list.old.memory.ghost_name }
    ensures adds { (at : ℕ → Option T) → ((k : ℕ) (r : Option T) → k < end → F.post find k r →
        r ≡ at k) → AddsFound at end list.old.memory.now list.old.len result list.new.memory.now list.new.len }
{
    if list.room() < usize::from(end) {
        return Err(Refusal::ListFull);
    }
    // there is room for all, so no add is refused
    for number in 0..end {
        if let Some(item) = find(number) {
            let _ = list.add(item);
        }
    }
    Ok(())
}

/// Copies a row into the first entries of the memory, and says how many these are. Refused: `ListFull`, with the
/// memory as it was, where the row is longer.
pub fn write_row<T: Copy>(memory: &mut [T], row: &[T]) -> Result<usize, Refusal>
    ensures { WritesRow row.now memory.old result memory.new }
{
    if memory.len() < row.len() {
        return Err(Refusal::ListFull);
    }
    let mut list = BoundedList::new(memory);
    for x in row {
        let _ = list.add(*x);
    }
    Ok(list.len())
}

#[cfg(test)]
mod tests;
