// What fits a script, said of single results and entries.
ghost use Rattle.run_model.specs.Fits.{CallsAreIn, MarksClimb};
ghost use Rattle.run_model.specs.Recorded.{Recorded};
ghost use Rattle.run_model.specs.FitsLaws.{CallsByPlaces, OrderByPlaces};
ghost use Rattle.script_types.specs.declared.script.ScriptData.{ScriptData};

/// A law: where calls stand once, the result of each call and of each take that found an output names its entry, and each
/// entry that names a caller's step is the one in that step's result; where looks stand between them, the places of a
/// caller's calls, takes and looks on a codec rise with its steps.
pub fn fits_by_places()
    ensures calls { (script : ScriptData) (run : Recorded) → CallsAreIn script run
        → CallsByPlaces script run }
    ensures order { (run : Recorded) → MarksClimb run → OrderByPlaces run }
{}
