//! The options of a call.
use crate::trouble::Trouble;
use budget::limits::{CheckedLimits, Limits};
use settings::read_limit;

fn set_limit(rt: &HostRuntime, limits: &mut Limits, word: &str) -> Result<(), Trouble> {
    if read_limit(limits, word).is_err() {
        return Err(Trouble::Option(String::from_str(rt.alloc(), word)?));
    }
    Ok(())
}

// The limits that `--limit NAME=NUMBER`, any number of times, says.
fn read_options(rt: &HostRuntime, options: &[String]) -> Result<Limits, Trouble> {
    let mut limits = Limits::default();
    for option in options.chunks(2) {
        match option {
            [name, word] if name.as_str() == "--limit" => set_limit(
                rt,
                &mut limits,
                word.as_str(),
            )?,
            _ => return Err(Trouble::Usage),
        }
    }
    Ok(limits)
}

/// The limits of a call, checked.
pub fn limits_of(rt: &HostRuntime, options: &[String]) -> Result<CheckedLimits, Trouble> {
    Ok(read_options(rt, options)?.check()?)
}
