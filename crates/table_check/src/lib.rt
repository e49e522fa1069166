// Whether a rule file is good. Any bytes of any length get an answer, and nothing outside the lent file is read.

#![tactic(auto)]

mod parts;
mod rows;

ghost use Rattle.table.specs.Calls.{Checked};

use numbers::Refusal;

// Whether a file keeps every rule. The parts are looked at in file order.
pub fn check(file: &[u8]) -> Result<(), Refusal>
    ensures { Checked file.now result }
{
    if parts::head(file)
        && parts::contents(file)
        && parts::classes(file)
        && parts::sets(file)
        && rows::rows(file)
    {
        return Ok(());
    }
    Err(Refusal::BadTable)
}
