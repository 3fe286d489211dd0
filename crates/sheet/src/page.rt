// What is read of a sheet.
use arrayvec::ArrayVec;
use book::book::Book;
use model::segment::Segment;
use model::step::Step;
use planner::plan::Planned;
use processor::ladder::Ladder;
use std::marker::Model;

// How far the reading has come: steps of the ladder; jobs of the book, for which the ladder is made; or the plan is drawn.
#[derive(Clone, Copy)]
pub(crate) enum Stage {
    Rungs,
    Tasks(Ladder),
    Drawn(Planned),
}

// A page: the steps, the book, how far these are read, and room for the plan. It is seen as the sheet as far as it is read.
#[derive(Drop)]
pub(crate) struct Page {
    pub(crate) steps: ArrayVec<Step, 16>,
    pub(crate) book: Book,
    pub(crate) stage: Stage,
    pub(crate) segments: [Segment; 1024],
}

impl Model for Page {
    ghost use Rattle.sheet.specs.Sheets.{Sheet};

    ghost Value = { Sheet };

    ghost use Rattle.sheet.specs.Pages.{Good, sheet_of};

    ghost view = { sheet_of };

    ghost invariant = { Good };
}
