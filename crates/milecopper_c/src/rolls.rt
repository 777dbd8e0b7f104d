// What C is offered over a whole roll.
ghost use Rattle.std.specs.Prelude.{length};
ghost use Rattle.corrections.specs.Corrections.{correction_of};
ghost use Rattle.corrections.specs.Clauses.{Corrected};

// Settles a roll afresh with its nth record exchanged, counted from 1, and compares it with the roll as it was. The statements of the corrected
// roll go to the start of `statements`, one behind another. The first 248 bytes of `differences` become, for the account holder, ten adults, ten
// children and ten bicycles, the new sum less the old one, 8 bytes each in two's complement.
// Accepted: the number of bytes written to the statements. Refused: the refusal's number × 2^32 + its place, and neither slice is touched. 23 comes
// first, and 12 last.
#[unsafe(no_mangle)]
pub extern "C" fn milecopper_correct(
    tariff: &[u8],
    roll: &[u8],
    n: u32,
    replacement: &[u8],
    statements: &mut [u8],
    differences: &mut [u8],
) -> u64
    ensures { Corrected (correction_of tariff.now roll.now n replacement.now
        (length statements.old) (length differences.old)) statements.old statements.new
        differences.old differences.new result }
{
    milecopper::rolls::milecopper_correct(tariff, roll, n, replacement, statements, differences)
}
