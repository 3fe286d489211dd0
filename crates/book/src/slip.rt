// What a hold gives out.

// A hold slip: the number of the book that gave it out, and the price of the held job. It cannot be dropped: take or release
// spends it.
pub struct Slip {
    pub(crate) book: u16,
    pub(crate) price: u64,
}
