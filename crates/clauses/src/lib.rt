// The four clauses as exact relations between capacities and load, and what they all keep.

#![tactic(auto)]

ghost use Rattle.clauses.specs.Clauses.{Bending, Shear, Tension, Compression};
ghost use Rattle.clauses.specs.Laws.{ClauseLaws};

// Computes nothing: every clause turns only on the ratios of forces to capacities, and what follows from that.
pub fn clauses_obey_their_laws()
    ensures bending { ClauseLaws Bending }
    ensures shear { ClauseLaws Shear }
    ensures tension { ClauseLaws Tension }
    ensures compression { ClauseLaws Compression }
{}
