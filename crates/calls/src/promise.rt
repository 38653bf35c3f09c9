ghost use Rattle.calls.specs.Promise.{EveryHistory};
ghost use Rattle.calls.specs.Equal.{EqualRuns};

// The promise holds of every list of calls that follow one another, whoever makes them.
pub fn every_history_keeps_it()
    ensures { EveryHistory }
{}

// What a run answers and leaves is settled by the environment, the parameters, the rows and the sizes of scratch.
pub fn equal_runs_answer_alike()
    ensures { EqualRuns }
{}
