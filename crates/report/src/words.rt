// Reasons and refusals in words, by functions and no Display: the words are the programs' own, and `hir` tells numbers alone.
use hir::refusal::Refusal;
use hir::tables::Reason;

// Why an identifier got its name.
pub fn reason_words(reason: Reason) -> &'static str {
    match reason {
        Reason::OwnParameter => "own parameter",
        Reason::Scope => "dependency or declaration of a scope",
        Reason::Escape => "declared in a pruned scope and used in another",
        Reason::InnerParameter => "parameter of an inner function",
        Reason::Interposed => "used after something was interposed",
        Reason::SameDeclaration => "same declaration as one that was named",
    }
}

// What a refusal means.
pub fn refusal_words(refusal: Refusal) -> &'static str {
    match refusal {
        Refusal::Limit => "a limit is passed",
        Refusal::Row => "an identifier row is wrong",
        Refusal::List => "a list leaves the pool or names what is not there",
        Refusal::Journal => "the journal has too few free rows",
        Refusal::Scratch => "too little scratch",
        Refusal::Shape => "depth, code or children of a row are wrong",
        Refusal::Depth => "a row lies too deep",
        Refusal::Field => "a field of a row is wrong",
        Refusal::Absent => "no such identifier",
        Refusal::Named => "the identifier has a name",
        Refusal::NotPromoted => "the identifier has no promoted name",
        Refusal::Buffer => "the buffer is too short",
    }
}
