ghost use Rattle.std.specs.Prelude.{◌≡◌};
ghost use Rattle.std.specs.Option.{SomeIff};
ghost use Rattle.sr_base.specs.Days.{IsDay};

use crate::copied::{Copied, NoMemory};
use std::alloc::Global;
use std::marker::Model;

const FIRST_DAY: i32 = -719162;

const LAST_DAY: i32 = 2932896;

/// A date from 0001-01-01 to 9999-12-31, as days since 1970-01-01 in the proleptic Gregorian calendar.
#[derive(Clone, Copy)]
pub struct Day {
    days: i32,
}

impl Model for Day {
    ghost use Rattle.std.specs.Prelude.{ℤ};
    ghost use Rattle.sr_base.specs.Days.{IsDay};

    ghost Value = { ℤ };

    ghost view = { λ d. d.days };

    ghost invariant = { λ d. IsDay d.days };

    ghost inverse = { λ n. record { days = n } };
}

impl Day {
    /// The day so many days after 1970-01-01. `None` where it is before 0001-01-01 or after 9999-12-31.
    pub fn new(days: i32) -> Option<Day>
        ensures day { SomeIff result (IsDay days) days }
    {
        if days < FIRST_DAY || days > LAST_DAY {
            return None;
        }
        Some(Day { days })
    }

    /// Days since 1970-01-01.
    pub fn days(&self) -> i32
        ensures days { result ≡ self.now }
        ensures range { IsDay result }
    {
        self.days
    }
}

impl Copied for Day {
    fn copy(&self, _alloc: Global) -> Result<Day, NoMemory> {
        Ok(*self)
    }
}
