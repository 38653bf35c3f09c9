ghost use Rattle.reasons.specs.Sentences.{EverySentence};

// Escapes and interposed uses, as defined along the rows, are what their sentences say.
pub fn every_sentence_holds()
    ensures { EverySentence }
{}
