// A byte that stands for no case: no tag, code, kind or mode.
#[derive(Clone, Copy, Debug, PartialEq, Eq)]
pub struct Unknown(pub u8);
