ghost use Rattle.pt_tables_keeper.specs.Writable.{ChangesOfRulesAreWritten};

/// A law: in a sound state, the change of each write that the rules accept can be written. So the test that a commit
/// makes before it writes refuses no such change.
pub fn changes_of_rules_are_written()
    ensures { ChangesOfRulesAreWritten }
{}
