//! What events do to the open containers.
ghost use Rattle.std.specs.Prelude.{◌≡◌, ◌<◌, ◌≤◌, [], drop, length, slice_get};
ghost use Rattle.budget.specs.Nesting.{awaits_key, closing, entered, is_value, key_next, opened, top_is_value, turned, turn_top};

use crate::containers::{ContainerState, OpenContainers};
use arrayvec::ArrayVec;
use events::kinds::EventKind;

impl ContainerState {
    /// What an event does to the container around it: a mapping goes from key to value and back.
    /// Answers whether a container that starts here is a mapping's value.
    fn turn(&mut self, kind: EventKind) -> bool
        ensures state { self.new ≡ turned kind self.old }
        ensures answer { result ≡ is_value kind self.old }
    {
        match (kind, self) {
            (EventKind::Scalar | EventKind::Alias, ContainerState::Mapping { expecting_key, .. }) =>
                {
                    *expecting_key = !*expecting_key;
                    false
                }
            (
                EventKind::SequenceStart | EventKind::MappingStart,
                ContainerState::Mapping { expecting_key, .. },
            ) => {
                let value = !*expecting_key;
                *expecting_key = false;
                value
            }
            (
                EventKind::SequenceEnd | EventKind::MappingEnd,
                ContainerState::Mapping { expecting_key, .. },
            ) => {
                *expecting_key = true;
                false
            }
            _ => false,
        }
    }

    /// Whether the next node is a mapping's key.
    fn awaits_key(self) -> bool
        ensures { result ≡ awaits_key self }
    {
        match self {
            ContainerState::Mapping { expecting_key, .. } => expecting_key,
            ContainerState::Sequence { .. } => false,
        }
    }

    /// The container that a start opens. A mapping begins with a key.
    fn opened_by(kind: EventKind, value: bool) -> ContainerState
        ensures { result ≡ opened kind value }
    {
        match kind {
            EventKind::MappingStart => ContainerState::Mapping {
                expecting_key: true,
                from_mapping_value: value,
            },
            _ => ContainerState::Sequence {
                from_mapping_value: value,
            },
        }
    }

    /// If an end fits the container, whether that was a mapping's value.
    pub(crate) fn closed_by(self, kind: EventKind) -> Option<bool>
        ensures { result ≡ closing kind self }
    {
        match (kind, self) {
            (EventKind::SequenceEnd, ContainerState::Sequence { from_mapping_value }) => {
                Some(from_mapping_value)
            }
            (
                EventKind::MappingEnd,
                ContainerState::Mapping {
                    from_mapping_value,
                    ..
                },
            ) => Some(from_mapping_value),
            _ => None,
        }
    }
}

impl OpenContainers {
    pub(crate) fn new() -> OpenContainers
        ensures { result ≡ [] }
    {
        OpenContainers {
            states: ArrayVec::new(),
        }
    }

    /// How many containers are open.
    pub(crate) fn depth(&self) -> u32
        ensures value { result ≡ length self.now }
        ensures fits { result ≤ 256 }
    {
        self.states.len() as u32
    }

    /// Turns the innermost container. Answers whether a container that starts here is a mapping's value.
    pub(crate) fn turn_top(&mut self, kind: EventKind) -> bool
        ensures state { self.new ≡ turn_top kind self.old }
        ensures answer { result ≡ top_is_value kind self.old }
    {
        // A match, and no `is_some_and`: the proof does not see what a closure writes through its argument.
        match self.states.last_mut() {
            Some(top) => top.turn(kind),
            None => false,
        }
    }

    /// A container starts in the one around it.
    pub(crate) fn enter(&mut self, kind: EventKind)
        requires { length self.old < 256 }
        ensures { self.new ≡ entered kind self.old }
    {
        let value = self.turn_top(kind);
        self.states.push(ContainerState::opened_by(kind, value));
    }

    /// Whether the next node is a mapping's key.
    pub(crate) fn key_next(&self) -> bool
        ensures { result ≡ key_next self.now }
    {
        self.states.last().is_some_and(|top| top.awaits_key())
    }

    /// Takes the innermost container off.
    pub(crate) fn pop(&mut self) -> Option<ContainerState>
        ensures state { self.new ≡ drop 1 self.old }
        ensures answer { result ≡ slice_get self.old 0 }
    {
        self.states.pop()
    }
}
