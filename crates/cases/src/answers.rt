// Answers as the tests compare them.
use refusal::refusal::Refusal;

// The number and the detail of an answer, 0 and 0 where it was accepted.
pub fn told<T: Drop>(answer: Result<T, Refusal>) -> (u32, usize) {
    match answer {
        Ok(_) => (0, 0),
        Err(why) => (why.number(), why.detail()),
    }
}
