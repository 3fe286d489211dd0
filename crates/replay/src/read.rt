// Reading a call from its words.
use crate::call::{Call, Figures};
use anyhow::anyhow;
use model::job::Job;
use model::step::Step;
use processor::ladder::Ladder;
use std::alloc::Global;

// Adds the figures of one word to those before it; a word may hold two, with a colon between them.
fn read_word(figures: &mut Vec<u64>, word: &str) -> anyhow::Result<()> {
    for part in word.split(':') {
        figures.push(part.parse::<u64>()?)?;
    }
    Ok(())
}

// All figures after the first word.
fn read_figures(heap: Global, text: &str) -> anyhow::Result<Vec<u64>> {
    let mut figures = Vec::new(heap);
    for word in text.split_whitespace().skip(1) {
        read_word(&mut figures, word)?;
    }
    Ok(figures)
}

// A ladder with a step for each two figures, its speed and its power. By one step more than a ladder may have it is seen to
// have too many, so no more are laid out.
fn read_ladder(figures: &[u64]) -> anyhow::Result<Call> {
    let (pairs, rest) = figures.as_chunks::<2>();
    if !rest.is_empty() {
        return Err(anyhow!("a step of a ladder has two figures"));
    }
    let mut steps = [Step::default(); 17];
    for (step, [speed, power]) in steps.iter_mut().zip(pairs) {
        *step = Step {
            speed: *speed,
            power: *power,
        };
    }
    Ok(Call::Ladder(Ladder::of(&steps[..pairs.len().min(17)])))
}

// A job of the first four figures. The fifth is a mark that says nothing to this book.
fn read_job(figures: &[u64]) -> anyhow::Result<Job> {
    match figures {
        [arrival, deadline, work, account, _] => Ok(Job {
            arrival: *arrival,
            deadline: *deadline,
            work: *work,
            account: *account,
        }),
        _ => Err(anyhow!("a job has five figures")),
    }
}

// The call of this name with these figures.
fn read_named(name: &str, figures: &[u64]) -> anyhow::Result<Call> {
    match (name, figures) {
        ("book", [number, 0]) => Ok(Call::Book(u16::try_from(*number)?)),
        ("ladder", _) => read_ladder(figures),
        ("formula", [count, stride, constant, linear, cubic]) => Ok(Call::Formula(Figures {
            count: usize::try_from(*count)?,
            stride: *stride,
            constant: *constant,
            linear: *linear,
            cubic: *cubic,
        })),
        ("enter", _) => Ok(Call::Enter(read_job(figures)?)),
        ("hold", _) => Ok(Call::Hold(read_job(figures)?)),
        ("take", [number]) => Ok(Call::Take(u16::try_from(*number)?)),
        ("release", [number]) => Ok(Call::Release(u16::try_from(*number)?)),
        ("strike", [_]) => Ok(Call::Strike),
        ("plan", [room]) => Ok(Call::Plan(usize::try_from(*room)?)),
        ("close", []) => Ok(Call::Close),
        ("charge", [account]) => Ok(Call::Charge(usize::try_from(*account)?)),
        ("count", []) => Ok(Call::Count),
        _ => Err(anyhow!("no call has this name and so many figures")),
    }
}

// The first word, or nothing.
pub fn first_word(text: &str) -> &str {
    text.split_whitespace().next().unwrap_or("")
}

// The call that is written in a text.
pub fn read(heap: Global, text: &str) -> anyhow::Result<Call> {
    let figures = read_figures(heap, text)?;
    read_named(first_word(text), figures.as_slice())
}
