// A panel that is to be encoded.
use hir::span::Span;
use reactive::source::TreeSource;

// Own parameters, as a span of the pool, and the source of the rows.
#[derive(Drop)]
pub struct Panel<S: TreeSource> {
    pub parameters: Span,
    pub tree: S,
}
