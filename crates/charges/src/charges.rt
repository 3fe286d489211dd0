// The table of charges itself.
ghost use Rattle.std.specs.Prelude.{◌≡◌, length};

// What one account has been charged.
#[derive(Clone, Copy, PartialEq, Eq, Debug)]
pub struct Charge {
    pub energy: u64,
}

// A record for each account: row 0 is the house, rows 1 to 64 are the accounts.
#[derive(Clone, Copy)]
pub struct Charges {
    pub(crate) rows: [Charge; 65],
    ghost full: { length rows ≡ 65 },
}
