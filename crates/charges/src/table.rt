// Making a table of charges, reading it, and adding to a row.
ghost use Rattle.std.specs.Prelude.{◌≡◌, ◌+◌, ◌^◌, ◌<◌, ◌≤◌, replicate, if◌then◌else◌, Some, None, nat_le, slice_index, slice_set};
ghost use Rattle.charges.specs.Rows.{rows_of};
ghost use Rattle.model.specs.Sums.{sum_to};

use crate::charges::{Charge, Charges};

impl Charges {
    // A table on which nobody has been charged.
    pub fn new() -> Charges
        ensures { rows_of result ≡ replicate 65 0 }
    {
        Charges {
            rows: [Charge { energy: 0 }; 65],
        }
    }

    // What an account has been charged, the house by 0, and nothing for a number above 64.
    pub fn charge(&self, account: usize) -> Option<u64>
        ensures { result ≡ (if nat_le account 64 then Some (slice_index (rows_of self.now) account) else None) }
    {
        self.rows.get(account).map(|row| row.energy)
    }

    // What all accounts and the house have been charged together.
    pub fn total(&self) -> u64
        requires { sum_to 65 (λ a. slice_index (rows_of self.now) a) ≤ 4000000000000000000 }
        ensures { result ≡ sum_to 65 (λ a. slice_index (rows_of self.now) a) }
    {
        self.rows.iter().map(|row| row.energy).sum()
    }

    // Adds to a row.
    pub(crate) fn raise(&mut self, account: usize, by: u64)
        requires known { account < 65 }
        requires room { slice_index (rows_of self.old) account + by < 2 ^ 64 }
        ensures { rows_of self.new ≡ slice_set (rows_of self.old) account (slice_index (rows_of self.old) account + by) }
    {
        self.rows[account].energy += by;
    }
}
