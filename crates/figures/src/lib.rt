// The figures that docs/FIGURES.md marks as proved.
#![tactic(auto)]

ghost use Rattle.figures.specs.Figures.{Figures};

// Says that every figure follows from the definitions that the contracts use.
pub fn figures_stand()
    ensures { Figures }
{}
