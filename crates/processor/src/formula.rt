// A processor whose steps follow from a few figures.
ghost use Rattle.std.specs.Prelude.{◌≡◌, false, is_some};
ghost use Rattle.processor.specs.Formulas.{formula_refusal};

// A formula: step i has speed `stride` × i and power `constant` + `linear` × i + `cubic` × i × i × i.
// No formula exists whose figures are refused.
#[derive(Clone, Copy)]
pub struct Formula {
    pub(crate) count: usize,
    pub(crate) stride: u64,
    pub(crate) constant: u64,
    pub(crate) linear: u64,
    pub(crate) cubic: u64,
    ghost lawful: { is_some (formula_refusal count stride constant linear cubic) ≡ false },
}
