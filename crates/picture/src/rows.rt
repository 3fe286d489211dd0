// The ladder and the jobs of a sheet.
use arrayvec::ArrayVec;
use grammar::row::Row;
use grammar::rows::read_row;
use model::step::Step;
use processor::ladder::Ladder;
use queue::queue::Queue;
use refusal::refusal::Refusal;
use sheet::drawing::draw;
use std::alloc::{AllocError, Global};

// The steps of a ladder as far as they are read, the ladder, and the jobs.
#[derive(Drop)]
pub(crate) struct Evening {
    pub(crate) ladder: Ladder,
    pub(crate) queue: Queue,
    steps: ArrayVec<Step, 16>,
}

impl Evening {
    // Takes a row of a sheet, or says why the ladder or the queue would not have it.
    fn take(&mut self, row: Row) -> Result<(), Refusal> {
        match row {
            Row::Rung(step) => self.steps.try_push(step).map_err(|_| Refusal::Count),
            Row::Task(job) => self.queue.push(job),
            Row::Draw => {
                self.ladder = Ladder::of(self.steps.as_slice())?;
                Ok(())
            }
        }
    }

    // Takes the rows of a sheet, or nothing where one of them would not be had.
    fn take_all(&mut self, sheet: &[u8]) -> Option<()> {
        for line in sheet.split_inclusive(|b| *b == b'\n') {
            let row = read_row(line.strip_suffix(b"\n")?)?;
            self.take(row).ok()?;
        }
        Some(())
    }

    // The ladder and the jobs of a sheet, if it is accepted.
    pub(crate) fn read(heap: Global, sheet: &[u8]) -> Result<Option<Evening>, AllocError> {
        let mut out = vec![in heap; 0u8; 16_384]?;
        let drawn = draw(heap, sheet, &mut out)?;
        let mut evening = Evening {
            ladder: Ladder::smallest(),
            queue: Queue::new(heap)?,
            steps: ArrayVec::new(),
        };
        if drawn.is_err() || evening.take_all(sheet).is_none() {
            return Ok(None);
        }
        Ok(Some(evening))
    }
}
