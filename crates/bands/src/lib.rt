// The height of a file's tree by the bench sheet.
#![tactic(auto)]

ghost use Rattle.std.specs.Prelude.{◌≡◌};
ghost use Rattle.bands.specs.Sheet.{sheet_height};

// The least height whose tree spans e bytes, by the sheet's bands.
#[tactic(auto, using(crate::proofs::Bands::in_first, crate::proofs::Bands::in_second, crate::proofs::Bands::in_third, crate::proofs::Bands::in_fourth, crate::proofs::Bands::off_sheet))]
pub fn least_height(e: u64) -> u64
    ensures { result ≡ sheet_height e }
{
    match e {
        0..=64 => 0,
        65..=512 => 1,
        513..=4096 => 2,
        4097..=32768 => 3,
        // No caller gets here: an end above 32,768 is refused 6 before a plan is made.
        _ => 0,
    }
}
