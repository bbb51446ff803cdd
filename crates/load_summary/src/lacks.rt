// What the definitions give.
ghost use Rattle.load_summary.specs.Lacks.{LoadsLackNothing};

/// The script of a load takes no chunk of a chunk file, so none is missing.
pub fn loads_lack_nothing()
    ensures { LoadsLackNothing }
{}
