// What is proved of the rules themselves.
ghost use Rattle.rules.specs.Cases.{CasesStand};
ghost use Rattle.rules.specs.Refused.{RefusalsChangeNothing};

// Every worked case follows from the rules: each is computed, and all are joined in one proposition.
// And whatever the table's free places, the model and the call, a refusal leaves the model as it is.
pub fn rules_stand()
    ensures cases { CasesStand }
    ensures refusals { RefusalsChangeNothing }
{}
