// The machine's call as C calls it: the static library over `record`.
#![tactic(auto)]

ghost use Rattle.std.specs.Prelude.{◌≡◌};
ghost use Rattle.record.specs.Reading.{machine_answer, read_any};

use record::machine;

// The step at a tick of a record, 0 to 15, or the number of the refusal.
#[unsafe(no_mangle)]
pub extern "C" fn nofjerm_step_at(record: &[u8], tick: u64) -> u32
    ensures { result ≡ machine_answer (read_any «record».now) tick }
{
    machine::nofjerm_step_at(record, tick)
}
