//! Lines are printed.
ghost use Rattle.std.specs.Prelude.{◌≡◌, true, false, ◌⊎◌, ◌++◌, IfOk, Ok, MatchResult};
ghost use Rattle.notation.specs.Lines.{printable, value_fits, shown_name, shown_tag, shown_value, shown, line_of};
ghost use Rattle.notation.specs.View.{said};
ghost use Rattle.notation.specs.declared.line.PrintError.TheVariants.{Unprintable, OutOfMemory};

use crate::escapes::push_escaped;
use crate::forms::{fits, name_mark, opener_of, shape_of, style_byte};
use crate::line::{Line, PrintError};
use crate::parts::Shape;
use events::kinds::ScalarStyle;
use slices::lacks;
use std::alloc::Global;

fn value_fits(shape: Shape, style: ScalarStyle, value: &[u8]) -> bool
    ensures value { result ≡ value_fits shape style value.now }
{
    match (shape, style) {
        (Shape::Value, _) => true,
        (_, ScalarStyle::Plain) => value.is_empty(),
        _ => false,
    }
}

/// Whether a line can be printed so that it reads back: its anchor has no space or line feed, its tag no `>` or line feed,
/// and it has no part that its kind does not take.
pub fn is_printable(line: &Line) -> bool
    ensures reads_back_if_printed { result ≡ printable (said line.now) }
{
    let shape = shape_of(line.kind);
    let anchor = line.anchor.as_slice();
    let tag = line.tag.as_slice();
    let parts_fit = fits(shape, anchor, tag)
        && value_fits(shape, line.style, line.value.as_slice());
    let anchor_reads = lacks(anchor, b' ') && lacks(anchor, b'\n');
    let tag_reads = lacks(tag, b'>') && lacks(tag, b'\n');
    parts_fit && (anchor_reads && tag_reads)
}

fn push_name(out: &mut Vec<u8>, mark: u8, name: &[u8]) -> Result<(), PrintError>
    ensures value { MatchResult result (λ _. out.new.items ≡ out.old.items ++ shown_name mark name.now) (λ e. e ≡ OutOfMemory) }
{
    if !name.is_empty() {
        out.extend_from_slice(&[b' ', mark])?;
        out.extend_from_slice(name)?;
    }
    Ok(())
}

fn push_tag(out: &mut Vec<u8>, tag: &[u8]) -> Result<(), PrintError>
    ensures value { MatchResult result (λ _. out.new.items ≡ out.old.items ++ shown_tag tag.now) (λ e. e ≡ OutOfMemory) }
{
    if !tag.is_empty() {
        out.extend_from_slice(b" <")?;
        out.extend_from_slice(tag)?;
        out.push(b'>')?;
    }
    Ok(())
}

fn push_value(
    out: &mut Vec<u8>,
    shape: Shape,
    style: ScalarStyle,
    value: &[u8],
) -> Result<(), PrintError>
    ensures value { MatchResult result (λ _. out.new.items ≡ out.old.items ++ shown_value shape style value.now) (λ e. e ≡ OutOfMemory) }
{
    if let Shape::Value = shape {
        out.extend_from_slice(&[b' ', style_byte(style)])?;
        push_escaped(out, value)?;
    }
    Ok(())
}

/// Prints a line, without the line feed that ends it, in its plain form: with no `---`, `...`, `{}` or `[]`.
pub fn print_line(heap: Global, line: &Line) -> Result<Vec<u8>, PrintError>
    ensures is_the_printed_line { MatchResult result (λ v. (printable (said line.now) ≡ true) × (v.items ≡ shown (said line.now))) (λ e. (e ≡ OutOfMemory) ⊎ ((e ≡ Unprintable) × (printable (said line.now) ≡ false))) }
    ensures reads_back { IfOk result (λ v. line_of v.items ≡ Ok (said line.now)) }
{
    if !is_printable(line) {
        return Err(PrintError::Unprintable);
    }
    let shape = shape_of(line.kind);
    let mut out = Vec::new(heap);
    out.extend_from_slice(opener_of(line.kind))?;
    push_name(&mut out, name_mark(shape), line.anchor.as_slice())?;
    push_tag(&mut out, line.tag.as_slice())?;
    push_value(&mut out, shape, line.style, line.value.as_slice())?;
    Ok(out)
}
