//! What holds of the rules on statements.
ghost use Rattle.cob_typed.specs.Typing.{RulesAreToldApart};

/// A law: rules with one number are one rule.
pub fn rules_are_told_apart()
    ensures { RulesAreToldApart }
{}
