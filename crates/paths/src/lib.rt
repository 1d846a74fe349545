// Labels, by which paths go (paths.rs, abstract_state.rs). Where each stands in the Rust:
//
//   here       the Rust
//   Label      abstract_state.rs 53 `Label`, the one label type
//
// A path is the labels of a row (`references`): paths.rs 7 `leq`, 11 `factor` and 17 `append` are `starts_with`, `factor` and `splice` there.
#![tactic(auto)]

ghost use Rattle.std.specs.Prelude.{◌≡◌, ◌<◌};
ghost use Rattle.meaning.specs.Labels.{number_of};
ghost use Rattle.paths.specs.Models.{label_of};

// Document 01's label. Its number puts the kind before the index, so that labels stand in the order of their numbers.
#[derive(Clone, Copy, PartialEq, Eq)]
pub enum Label {
    Local(u16),
    Global(u16),
    Field(u16),
}

impl Label {
    // Below 262,144, four times 65,536.
    pub fn number(self) -> u32
        ensures { (result ≡ number_of (label_of self)) × (result < 262144) }
    {
        match self {
            Label::Local(i) => i as u32,
            Label::Global(i) => 65536 + i as u32,
            Label::Field(i) => 131072 + i as u32,
        }
    }
}
