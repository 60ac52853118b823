ghost use Rattle.std.specs.Prelude.{◌<◌, ◌≡◌, ◌≤◌, ◌↔◌, true, false, slice_set, IsNone};
ghost use Rattle.fan_core.specs.Flags.{has, no_drives, lowest, count};

use std::marker::Model;

/// A set of the numbers 0 to 7, seen as eight flags.
#[derive(Clone, Copy, Debug, PartialEq, Eq)]
pub struct Drives {
    flags: [bool; 8],
}

impl Model for Drives {
    ghost use Rattle.std.specs.Prelude.{◌≡◌, List, Bool, length};

    ghost Value = { List Bool };

    ghost view = { λ drives. drives.flags };

    ghost invariant = { λ drives. length drives.flags ≡ 8 };

    ghost inverse = { λ flags. record { flags = flags } };
}

impl Drives {
    /// The empty set.
    pub fn none() -> Drives
        ensures { result ≡ no_drives }
    {
        Drives { flags: [false; 8] }
    }

    /// Whether a number is in the set; none above 7 is.
    pub fn has(&self, d: u32) -> bool
        ensures is { result ≡ has self.now d }
        ensures above { 7 < d → result ≡ false }
    {
        if d < 8 { self.flags[d as usize] } else { false }
    }

    /// The set with a number more.
    pub fn with(self, d: u32) -> Drives
        requires { d ≤ 7 }
        ensures { result ≡ slice_set self d true }
    {
        let mut flags = self.flags;
        flags[d as usize] = true;
        Drives { flags }
    }

    /// The set without a number. It is the same where the number is not in it, so above 7 too.
    pub fn without(self, d: u32) -> Drives
        ensures { result ≡ slice_set self d false }
    {
        let mut flags = self.flags;
        if d < 8 {
            flags[d as usize] = false;
        }
        Drives { flags }
    }

    /// How many numbers are in the set.
    pub fn count(&self) -> u32
        ensures { result ≡ count self.now }
    {
        let mut n = 0;
        for flag in self.flags.iter() {
            if *flag {
                n += 1;
            }
        }
        n
    }

    /// The least number of the set; `None` exactly where the set is empty.
    pub fn lowest(&self) -> Option<u32>
        ensures lowest { result ≡ lowest self.now }
        ensures none { IsNone result ↔ (self.now ≡ no_drives) }
    {
        for (d, flag) in self.flags.iter().enumerate() {
            if *flag {
                return Some(d as u32);
            }
        }
        None
    }
}
