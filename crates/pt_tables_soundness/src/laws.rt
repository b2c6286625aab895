ghost use Rattle.std.specs.Prelude.{◌↔◌};
ghost use Rattle.pt_desk_rules.specs.Sound.{IsSound};
ghost use Rattle.pt_desk_rules.specs.State.{State};
ghost use Rattle.pt_desk_rules.specs.TableNames.{table_count};
ghost use Rattle.pt_tables_soundness.specs.Tables.{IsSoundTo};

/// A law: a state is sound exactly if each of its tables is.
pub fn soundness_is_that_of_each_table()
    ensures { (s : State) → IsSoundTo table_count s ↔ IsSound s }
{}
