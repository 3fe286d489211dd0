// What one line of a sheet says.
use model::job::Job;
use model::step::Step;

// A row: a step of the ladder (letter T), a job (letter J), or that the plan be drawn (letter P).
#[derive(Clone, Copy)]
pub enum Row {
    Rung(Step),
    Task(Job),
    Draw,
}
