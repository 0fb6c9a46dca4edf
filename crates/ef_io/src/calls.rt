// The calls of an object in memory, and its count of faults.
ghost use Rattle.std.specs.Prelude.{◌≡◌};
ghost use Rattle.ef_io.specs.Count.{one_more};
ghost use Rattle.ef_io.specs.Calls.{counted, is_failing};

/// The calls made so far, and the numbers, from 1, of those that are to fail.
#[derive(Drop)]
pub struct Calls {
    failing: Vec<u64>,
    made: u64,
}

impl Calls {
    pub fn new(failing: Vec<u64>) -> Calls
        ensures { result ≡ record { failing = failing; made = 0 } }
    {
        Calls { failing, made: 0 }
    }

    /// Counts one more call, and answers whether it is to fail.
    pub fn count(&mut self) -> bool
        ensures counted { self.new ≡ counted self.old }
        ensures failing { result ≡ is_failing (counted self.old) }
    {
        self.made = one_more(self.made);
        self.failing.contains(&self.made)
    }
}

/// A count after one more. It ends at the greatest number of 64 bits.
pub fn one_more(count: u64) -> u64
    ensures { result ≡ one_more count }
{
    count.saturating_add(1)
}
