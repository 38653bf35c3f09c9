// What a run answers over a tree of an image.
#![tactic(auto)]

pub mod alike;
