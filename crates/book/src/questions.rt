// What can be asked of a book and of a slip.
ghost use Rattle.std.specs.Prelude.{◌≡◌, [], ◌∷◌, length, IfOk, nat_lt, slice_index};
ghost use Rattle.book.specs.Books.{state};
ghost use Rattle.refusal.specs.Refusals.{outcome, first_of, line};

use crate::book::Book;
use crate::slip::Slip;
use refusal::refusal::Refusal;

impl Book {
    // What an account has been charged; account 0 is the house.
    pub fn charge(&self, account: usize) -> Result<u64, Refusal>
        ensures answer { outcome result ≡ first_of (line (nat_lt 64 account) 12 0 ∷ []) }
        ensures figure { IfOk result (λ e. e ≡ slice_index (state self.now).charges account) }
    {
        self.charges.charge(account).ok_or(Refusal::Account)
    }

    // How many jobs stand; a held job is not counted.
    pub fn count(&self) -> usize
        ensures { result ≡ length (state self.now).jobs }
    {
        self.queue.len()
    }
}

impl Slip {
    // The price of the held job.
    pub fn price(&self) -> u64
        ensures { result ≡ self.now.price }
    {
        self.price
    }
}
