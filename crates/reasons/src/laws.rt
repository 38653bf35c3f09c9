ghost use Rattle.reasons.specs.Laws.{EveryJournal, IdleRuns};

// Of every journal: who is in it and under which reason, each once, and who is in it for reason 6.
pub fn every_journal_keeps_the_laws()
    ensures { EveryJournal }
{}

// Where there is no scope and no function, every own parameter has a name, and every Instruction has an lvalue without a name, the journal gets no row.
pub fn idle_runs_journal_nothing()
    ensures { IdleRuns }
{}
