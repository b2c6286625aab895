ghost use Rattle.pt_tables_rows.specs.Opens.{OpensOnce, SameRowsSameContent};

/// A law: no two contents have the same rows, up to their order.
pub fn same_rows_same_content()
    ensures { SameRowsSameContent }
{}

/// A law: the rows determine what an opening finds, one content or none.
pub fn an_opening_finds_one_thing()
    ensures { OpensOnce }
{}
