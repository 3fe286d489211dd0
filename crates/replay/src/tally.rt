// How many calls of each kind were tried, and how many were answered as expected.
use std::io;

// The kinds of calls.
const NAMES: [&'static str; 12] = [
    "book", "ladder", "formula", "enter", "hold", "take", "release", "strike", "plan", "close",
    "charge", "count",
];

// The calls of one kind, or of all.
#[derive(Clone, Copy)]
struct Row {
    name: &'static str,
    tried: u64,
    refused: u64,
    met: u64,
}

impl Row {
    // No calls of this kind.
    fn new(name: &'static str) -> Row {
        Row {
            name,
            tried: 0,
            refused: 0,
            met: 0,
        }
    }

    // Counts one call.
    fn note(&mut self, refused: bool, met: bool) {
        self.tried = self.tried.saturating_add(1);
        self.refused = self.refused.saturating_add(u64::from(refused));
        self.met = self.met.saturating_add(u64::from(met));
    }

    fn show(&self, rt: &impl Print) -> io::Result<()> {
        let name = self.name;
        let tried = self.tried;
        let refused = self.refused;
        let met = self.met;
        println!(rt; "{name:<8} {tried:>6} {refused:>8} {met:>12}")
    }
}

// A row for each kind of call, and one for all.
#[derive(Drop)]
pub struct Tally {
    rows: [Row; 12],
    all: Row,
}

impl Tally {
    pub fn new() -> Tally {
        Tally {
            rows: NAMES.map(Row::new),
            all: Row::new("all"),
        }
    }

    // Counts one call of this kind.
    pub fn note(&mut self, name: &str, refused: bool, met: bool) {
        self.all.note(refused, met);
        if let Some(row) = self.rows.iter_mut().find(|row| row.name == name) {
            row.note(refused, met);
        }
    }

    // How many calls were answered otherwise than expected.
    pub fn missed(&self) -> u64 {
        self.all.tried.saturating_sub(self.all.met)
    }

    // The table.
    pub fn show(&self, rt: &impl Print) -> io::Result<()> {
        println!(rt; "call      tried  refused  as expected")?;
        for row in &self.rows {
            row.show(rt)?;
        }
        self.all.show(rt)
    }
}
