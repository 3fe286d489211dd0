// What a line says.
ghost use Rattle.std.specs.Prelude.{◌≡◌, ◌∷◌};
ghost use Rattle.grammar.specs.Rows.{Exactly, Fields, row_of};

use crate::row::Row;
use model::job::Job;
use model::step::Step;
use text::read::read_number;

// Reads the numbers that follow the letter of a line, as many as are wanted; none where they do not stand there.
fn read_fields<const N: usize>(text: &[u8]) -> Option<[u64; N]>
    ensures { Fields N text.now result }
{
    let mut numbers = [0; N];
    let mut rest = text;
    for number in numbers.iter_mut() {
        let (value, after) = read_number(rest.strip_prefix(b" ")?)?;
        *number = value;
        rest = after;
    }
    rest.is_empty().then_some(numbers)
}

// What a line says, if it is well formed.
pub fn read_row(line: &[u8]) -> Option<Row>
    ensures value { result ≡ row_of line.now }
    ensures exact { Exactly line.now result }
{
    let (letter, text) = line.split_first()?;
    match *letter as char {
        'T' => read_rung(text),
        'J' => read_task(text),
        'P' => read_draw(text),
        _ => None,
    }
}

// A step of the ladder: its speed and its power.
fn read_rung(text: &[u8]) -> Option<Row>
    ensures { Exactly (84 ∷ text.now) result }
{
    let [speed, power] = read_fields::<2>(text)?;
    Some(Row::Rung(Step { speed, power }))
}

// A job: its arrival, its deadline, its work and its account.
fn read_task(text: &[u8]) -> Option<Row>
    ensures { Exactly (74 ∷ text.now) result }
{
    let [arrival, deadline, work, account] = read_fields::<4>(text)?;
    Some(Row::Task(Job {
        arrival,
        deadline,
        work,
        account,
    }))
}

// That the plan be drawn.
fn read_draw(text: &[u8]) -> Option<Row>
    ensures { Exactly (80 ∷ text.now) result }
{
    let [] = read_fields::<0>(text)?;
    Some(Row::Draw)
}
