// Laws of whole waves. They have no body that runs.
ghost use Rattle.run_laws.specs.Between.{BeginLaw, BetweenLaw};
ghost use Rattle.run_laws.specs.Free.{FreeLaw};
ghost use Rattle.run_laws.specs.FreeRuns.{FreeRunLaw};
ghost use Rattle.run_laws.specs.Placing.{PlaceLaw};

/// A sound submission whose inputs' hashes are Unspent when its file's wave begins, and that no other sound submission of the file
/// contends with, is confirmed: at its place in the new Prepares of its lane.
pub fn free_law()
    ensures { FreeLaw }
{}

/// Each sound submission of a run has its one place in the new Prepares of its lane, with an outcome, and nothing else has one.
pub fn place_law()
    ensures { PlaceLaw }
{}

/// The same in a whole run: the submission's place counts all sound ones of its lane in the files before, and its outcome stays.
pub fn free_run_law()
    ensures { FreeRunLaw }
{}

/// Each file's wave begins at journals between those at a run's entry and exit.
pub fn begin_law()
    ensures { BeginLaw }
{}

/// And these are kept, where those at entry and at exit are.
pub fn between_law()
    ensures { BetweenLaw }
{}
