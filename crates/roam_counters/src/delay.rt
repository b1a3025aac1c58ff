//! The time that home servers take to answer.

ghost use Rattle.std.specs.Prelude.{◌≡◌};
ghost use Rattle.roam_counters.specs.Delays as spec;

/// From the last sending of a request to its reply: the least of these bounds that it keeps, in milliseconds.
#[derive(Clone, Copy, PartialEq, Eq)]
pub enum Delay {
    Within10,
    Within30,
    Within100,
    Within300,
    Within1000,
    Within3000,
    Within10000,
    Longer,
}

impl Delay {
    /// Returns the delay of so many milliseconds.
    pub fn of(milliseconds: u64) -> Delay
        ensures { result ≡ spec.delay_of milliseconds }
    {
        if milliseconds <= 10 {
            Delay::Within10
        } else if milliseconds <= 30 {
            Delay::Within30
        } else if milliseconds <= 100 {
            Delay::Within100
        } else if milliseconds <= 300 {
            Delay::Within300
        } else {
            Delay::beyond_300(milliseconds)
        }
    }

    /// Returns the delay of so many milliseconds, which are more than 300.
    fn beyond_300(milliseconds: u64) -> Delay
        ensures { result ≡ spec.beyond_300 milliseconds }
    {
        if milliseconds <= 1000 {
            Delay::Within1000
        } else if milliseconds <= 3000 {
            Delay::Within3000
        } else if milliseconds <= 10000 {
            Delay::Within10000
        } else {
            Delay::Longer
        }
    }

    /// Returns its place among the eight.
    pub fn place(self) -> usize
        ensures { result ≡ spec.delay_place self }
    {
        match self {
            Delay::Within10 => 0,
            Delay::Within30 => 1,
            Delay::Within100 => 2,
            Delay::Within300 => 3,
            Delay::Within1000 => 4,
            Delay::Within3000 => 5,
            Delay::Within10000 => 6,
            Delay::Longer => 7,
        }
    }
}
