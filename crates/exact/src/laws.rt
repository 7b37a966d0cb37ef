ghost use Rattle.exact.specs.Laws.{FractionLaws};

// Computes nothing: the definitions of fractions mean what their names say.
pub fn fractions_obey_their_laws()
    ensures { FractionLaws }
{}
