//! What every refusal tells besides its cause.
#![tactic(auto)]

/// The part of the setter that refuses.
#[derive(Clone, Copy, Debug, PartialEq, Eq)]
pub enum Layer {
    /// The reader of include tags.
    Tags,
    /// The catalogue.
    Catalogue,
    /// The first pass over a piece, before a passage of it is unfolded.
    Collection,
    /// The unfolding of a passage.
    Unfolding,
    /// The budget enforcer.
    Enforcer,
    /// The session itself.
    Session,
}
