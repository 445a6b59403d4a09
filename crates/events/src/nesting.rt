//! The nesting rule: sequences and mappings pair and nest, and streams and documents start and end outside of them.
ghost use Rattle.std.specs.Prelude.{◌≡◌, ◌+◌, ◌<◌, ◌≤◌, length, reverse};
ghost use Rattle.std.specs.Bool.{then_some};
ghost use Rattle.arrayvec.specs.ArrayVec.{array_vec_len};
ghost use Rattle.events.specs.Rules.{nests, shut, turned};

use crate::kinds::{Container, EventKind};
use crate::score::Event;
use arrayvec::ArrayVec;

/// Closes the innermost open container if it is of the wanted kind.
fn close(held: &mut ArrayVec<Container, 8192>, container: Container) -> bool
    ensures containers { then_some result (reverse held.new.items) ≡ shut container (reverse held.old.items) }
    ensures count { array_vec_len held.new ≤ array_vec_len held.old }
{
    if held.last() != Some(&container) {
        return false;
    }
    held.pop();
    true
}

/// What an event of a kind opens and closes; false if it may not stand here.
fn turn(held: &mut ArrayVec<Container, 8192>, kind: EventKind) -> bool
    requires { array_vec_len held.old < 8192 }
    ensures containers { then_some result (reverse held.new.items) ≡ turned kind (reverse held.old.items) }
    ensures count { array_vec_len held.new ≤ array_vec_len held.old + 1 }
{
    match kind {
        EventKind::SequenceStart => {
            held.push(Container::Sequence);
            true
        }
        EventKind::MappingStart => {
            held.push(Container::Mapping);
            true
        }
        EventKind::SequenceEnd => close(held, Container::Sequence),
        EventKind::MappingEnd => close(held, Container::Mapping),
        EventKind::Alias | EventKind::Scalar => true,
        EventKind::StreamStart
        | EventKind::StreamEnd
        | EventKind::DocumentStart
        | EventKind::DocumentEnd => held.is_empty(),
    }
}

/// Whether the events of a piece pair and nest.
pub(crate) fn containers_nest(events: &[Event]) -> bool
    requires { length events.now ≤ 8192 }
    ensures { result ≡ nests events.now }
{
    let mut held = ArrayVec::new();
    for event in events {
        let Some(kind) = event.kind() else {
            return false;
        };
        if !turn(&mut held, kind) {
            return false;
        }
    }
    held.is_empty()
}
