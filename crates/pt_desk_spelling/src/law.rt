ghost use Rattle.pt_desk_spelling.specs.Law.{SpellingTellsRequest};

/// A law: no two requests have the same spelling.
pub fn spelling_tells_its_request()
    ensures { SpellingTellsRequest }
{}
