ghost use Rattle.pt_rights_conditions.specs.Texts.{TextTellsCondition};

/// A law: no two conditions have the same text.
pub fn condition_text_tells_its_condition()
    ensures { TextTellsCondition }
{}
