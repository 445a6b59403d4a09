//! The slate: one byte for each number, lent by the caller; 1 while the range of the number is open.
ghost use Rattle.std.specs.Prelude.{◌≡◌};
ghost use Rattle.fragment.specs.Slate.{blank};

/// The bytes of a slate that are used: one for each number that a piece can have.
pub(crate) const SLATE_BYTES: usize = 256;

/// No range is open.
pub(crate) fn close_all(slate: &mut [u8; SLATE_BYTES])
    ensures all_closed { slate.new ≡ blank }
{
    *slate = [0; SLATE_BYTES];
}

/// Keeps the slate of an unfolding. When it goes, on every way out, no range is open.
pub(crate) struct SlateGuard<'a> {
    pub(crate) slate: &'a mut [u8; SLATE_BYTES],
}

impl Drop for SlateGuard<'_> {
    fn drop(self)
        ensures leaves_all_closed { self.exit.0.now ≡ blank }
    {
        let SlateGuard { slate } = self;
        close_all(slate);
    }
}
