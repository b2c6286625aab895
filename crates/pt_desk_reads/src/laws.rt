ghost use Rattle.pt_desk_reads.specs.Inquiry.{RefusalsAreShown};

/// A law: if no vehicle of a refusal's facts has a place for a wish, the wish is denied `no vehicle`.
pub fn refusals_are_shown()
    ensures { RefusalsAreShown }
{}
