// A tree of an image, and a table of the same rows.
ghost use Rattle.image_runs.specs.Alike.{EqualSources, EqualAnswers};

// The sources over both stand for the same rows, so that a run answers alike over either.
pub fn image_and_table_run_alike()
    ensures sources { EqualSources }
    ensures answers { EqualAnswers }
{}
