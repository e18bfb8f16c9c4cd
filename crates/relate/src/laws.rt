// What is printed is decided by the two sheets. The function here does nothing: its contract is a law about definitions, so that the check asks for its proof.
ghost use Rattle.relate.specs.Reports.{PrintedLaw};

// One line alone is printed for two sheets.
pub fn printed_law()
    ensures { PrintedLaw }
{}
