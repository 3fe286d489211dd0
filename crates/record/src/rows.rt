// The worked record.
ghost use Rattle.record.specs.Example.{Worked};

// The worked record is written and read back as it stands.
pub fn record_works()
    ensures { Worked }
{}
