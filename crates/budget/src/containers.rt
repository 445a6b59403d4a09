//! The containers that are open.
mod nesting;

use arrayvec::ArrayVec;
use std::marker::Model;

/// An open container, and whether it is the value of a mapping's entry; of a mapping also whether a key comes next.
#[derive(Clone, Copy, Debug, PartialEq, Eq)]
pub enum ContainerState {
    Sequence {
        from_mapping_value: bool,
    },
    Mapping {
        expecting_key: bool,
        from_mapping_value: bool,
    },
}

impl Default for ContainerState {
    /// A sequence that is the value of no entry.
    fn default() -> ContainerState {
        ContainerState::Sequence {
            from_mapping_value: false,
        }
    }
}

/// The open containers, at most 256 of them. A clause sees a list, the innermost first.
#[derive(Drop)]
pub struct OpenContainers {
    states: ArrayVec<ContainerState, 256>,
}

impl Model for OpenContainers {
    ghost use Rattle.std.specs.Prelude.{List, reverse};
    ghost use Rattle.budget.specs.declared.containers.ContainerState.{ContainerState};

    ghost Value = { List ContainerState };

    ghost view = { λ c. reverse c.states.items };
}
