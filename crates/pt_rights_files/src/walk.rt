//! Steps of a walk over a case file: what one more entry does to what is open.
ghost use Rattle.std.specs.Prelude.{◌≡◌, ◌&&◌, ◌||◌, not};

/// Whether something is open after an entry that may close what was open, and may open something again.
pub(crate) fn open_after(pending: bool, closes: bool, opens: bool) -> bool
    ensures { result ≡ ((pending && not closes) || opens) }
{
    pending && !closes || opens
}

/// Whether what is open was followed up, after an entry that may close it or follow it up.
pub(crate) fn followed_after(followed: bool, pending: bool, closes: bool, follows: bool) -> bool
    ensures { result ≡ (not closes && (followed || (pending && follows))) }
{
    !closes && (followed || pending && follows)
}
