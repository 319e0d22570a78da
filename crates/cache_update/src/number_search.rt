//! Searches in ascending numbers that begin where another one ended: what is near is found in a few steps, and what is far in as
//! many as by halves.
ghost use Rattle.std.specs.Prelude.{◌<◌, ◌≤◌, length, get_or};
ghost use Rattle.std.specs.Bool.{OnTrue, OnFalse};
ghost use Rattle.std.specs.List.Sorted.{IsNonDecreasing};
ghost use Rattle.cache_update.specs.Brackets.{IsBracket};

// Bounds between which a number stands, where those before an index are below it.
fn bounds_on(numbers: &[u64], from: usize, number: u64) -> (usize, usize)
    requires sorted { IsNonDecreasing numbers.now }
    requires known { IsBracket numbers.now number from (length numbers.now) }
    ensures { IsBracket numbers.now number result.0 result.1 }
{
    let mut low = from;
    let mut step = 1;
    while step < numbers.len() - low {
        let at = low + step;
        let value = numbers[at];
        if value >= number {
            return (low, at);
        }
        low = at + 1;
        step *= 2;
    }
    (low, numbers.len())
}

// Bounds between which a number stands, where those from an index on are not below it.
fn bounds_back(numbers: &[u64], to: usize, number: u64) -> (usize, usize)
    requires sorted { IsNonDecreasing numbers.now }
    requires known { IsBracket numbers.now number 0 to }
    ensures { IsBracket numbers.now number result.0 result.1 }
{
    let mut high = to;
    let mut step = 1;
    while step < high {
        let at = high - step - 1;
        let value = numbers[at];
        if value < number {
            return (at + 1, high);
        }
        high = at;
        step *= 2;
    }
    (0, high)
}

// Whether what stands at the index is below the number.
fn is_below(numbers: &[u64], at: usize, number: u64) -> bool
    ensures there { OnTrue result ((at < length numbers.now) × (get_or numbers.now at 0 < number)) }
    ensures other { OnFalse result (at < length numbers.now → number ≤ get_or numbers.now at 0) }
{
    at < numbers.len() && numbers[at] < number
}

// Bounds between which a number stands, sought from an index on.
fn bounds_near(numbers: &[u64], near: usize, number: u64) -> (usize, usize)
    requires { IsNonDecreasing numbers.now }
    ensures { IsBracket numbers.now number result.0 result.1 }
{
    if is_below(numbers, near, number) {
        bounds_on(numbers, near + 1, number)
    } else {
        bounds_back(numbers, near.min(numbers.len()), number)
    }
}

/// How many of ascending numbers are below one, sought from an index on.
pub(crate) fn index_near(numbers: &[u64], near: usize, number: u64) -> usize
    requires { IsNonDecreasing numbers.now }
    ensures { IsBracket numbers.now number result result }
{
    let (mut low, mut high) = bounds_near(numbers, near, number);
    while low < high {
        let middle = low + (high - low) / 2;
        let value = numbers[middle];
        if value < number {
            low = middle + 1;
        } else {
            high = middle;
        }
    }
    low
}
