// The machine's call.
ghost use Rattle.std.specs.Prelude.{◌≡◌, ◌≤◌, IfOk};
ghost use Rattle.record.specs.Reading.{machine_answer, numbered, read_any};

use crate::check::check;
use crate::numbers::Reader;
use refusal::refusal::Refusal;

// The first number that a kind of processor may have.
const FIRST_KIND: u8 = 1;

// The step at a tick of a record by any processor, or why there is none.
fn step_at(record: &[u8], tick: u64) -> Result<usize, Refusal>
    ensures low { IfOk result (λ n. n ≤ 16) }
    ensures answer { numbered result ≡ machine_answer (read_any «record».now) tick }
{
    let mut reader = Reader { rest: record };
    let kind = reader.read_byte()?;
    if !(FIRST_KIND..=127).contains(&kind) {
        return Err(Refusal::Kind);
    }
    let passed = check(reader.rest, 16, 1024, tick)?;
    passed.step.ok_or(Refusal::Past)
}

// The step at a tick of a record, 0 to 15, or the number of the refusal.
pub fn nofjerm_step_at(record: &[u8], tick: u64) -> u32
    ensures { result ≡ machine_answer (read_any «record».now) tick }
{
    match step_at(record, tick) {
        Ok(step) => step as u32,
        Err(refusal) => refusal.number(),
    }
}
