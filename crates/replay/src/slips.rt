// Slips for calls that bring one which the open hold did not give out.
ghost use Rattle.std.specs.Prelude.{◌≡◌, true, is_some, is_ok};
ghost use Rattle.book.specs.Books.{state, handed_back};

use anyhow::anyhow;
use book::book::Book;
use book::slip::Slip;
use model::job::Job;
use processor::ladder::Ladder;
use refusal::refusal::Refusal;
use std::alloc::Global;

// What is done with a slip.
#[derive(Clone, Copy)]
pub enum Way {
    Take,
    Release,
}

impl Way {
    // Brings a slip to a book.
    pub fn bring(self, book: &mut Book, slip: Slip) -> Result<(), (Slip, Refusal)>
        ensures back { handed_back slip result }
        ensures number { (state book.new).number ≡ (state book.old).number }
        ensures foreign { (slip.book ≡ (state book.old).number → ⊥) → state book.new ≡ state book.old }
        ensures spends { is_some (state book.old).held ≡ true → slip.book ≡ (state book.old).number → is_ok result ≡ true }
    {
        match self {
            Way::Take => book.take(slip),
            Way::Release => book.release(slip),
        }
    }
}

// A job that every new book can hold on the smallest ladder, whose top speed does a unit of work in 5,040 ticks.
const SMALL: Job = Job {
    arrival: 0,
    deadline: 1,
    work: 1,
    account: 1,
};

// Brings to a book a slip of a second book of the given number, and hands it back there where it was refused.
pub fn bring_other(
    heap: Global,
    book: &mut Book,
    number: u16,
    way: Way,
) -> anyhow::Result<Result<(), Refusal>>
    ensures number { (state book.new).number ≡ (state book.old).number }
    ensures foreign { (number ≡ (state book.old).number → ⊥) → state book.new ≡ state book.old }
{
    let mut other = Book::new(heap, number)?;
    let Ok(slip) = other.hold(SMALL, &Ladder::smallest()) else {
        return Err(anyhow!("a new book refused a small job"));
    };
    match way.bring(book, slip) {
        Ok(()) => Ok(Ok(())),
        Err((slip, why)) => match other.release(slip) {
            Ok(()) => Ok(Err(why)),
            Err((_slip, _why)) => unreachable(),
        },
    }
}
