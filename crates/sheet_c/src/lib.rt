// What the plan program prints as C calls it: the static library over `sheet`.
#![tactic(auto)]

ghost use Rattle.std.specs.Prelude.{◌≡◌, length};
ghost use Rattle.sheet.specs.Answers.{printed, Prints};

use sheet::output;
use std::alloc::Global;

// Writes what a sheet gives from the buffer's start, and answers its length, or 0 where nothing was written: there is no memory for a
// book, or the buffer is too short even for the refused line.
#[unsafe(no_mangle)]
pub extern "C" fn nofjerm_plan_sheet(heap: Global, sheet: &[u8], out: &mut [u8]) -> usize
    ensures { Prints (printed (length out.old) sheet.now) out.old out.new result }
{
    output::nofjerm_plan_sheet(heap, sheet, out)
}
