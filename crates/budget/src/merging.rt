//! Merge keys: the scalar `<<` with the merge tag, or plain with no tag.
ghost use Rattle.std.specs.Prelude.{◌≡◌};
ghost use Rattle.budget.specs.Merging.{is_merge, merges, merge_tagged};
ghost use Rattle.budget.specs.Seeing.{seen};

use crate::observed::ObservedEvent;
use crate::policy::MergeKeyPolicy;
use events::kinds::ScalarStyle;

fn is_merge_tag(tag: &[u8]) -> bool
    ensures { result ≡ merge_tagged tag.now }
{
    tag == b"tag:yaml.org,2002:merge".as_slice()
}

impl MergeKeyPolicy {
    /// Whether merge keys are merged.
    fn merges_keys(self) -> bool
        ensures { result ≡ merges self }
    {
        self == MergeKeyPolicy::Merge
    }

    /// Whether a scalar is a merge key that counts, where a key stands.
    pub(crate) fn counts(self, event: ObservedEvent) -> bool
        ensures { result ≡ is_merge self (seen event.entry) }
    {
        self.merges_keys()
            && event.value == b"<<".as_slice()
            && (is_merge_tag(event.tag)
                || event.tag.is_empty() && event.style == ScalarStyle::Plain)
    }
}
