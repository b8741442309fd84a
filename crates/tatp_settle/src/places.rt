//! The places of calls and entries.
ghost use Rattle.std.specs.Prelude.{◌≡◌, ◌⊎◌, ℕ, Some};
ghost use Rattle.tatp_settle.specs.Placing.{IsAtMost};
ghost use Rattle.tatp_settle.specs.ChapterTables.{IsChapterAtMost};

/// One of a client's calls.
#[derive(Clone, Copy, Debug, PartialEq, Eq)]
pub struct CallPlace {
    /// Whose call it is.
    pub client: u64,
    /// How many calls of the client come before it.
    pub number: u64,
}

/// One of an extent's chapters, or after the last of them its log.
#[derive(Clone, Copy, Debug, PartialEq, Eq)]
pub(crate) struct ChapterPlace {
    /// Which extent, 0 for the calls without a home.
    pub(crate) extent: u64,
    /// How many of its chapters come before it.
    pub(crate) index: u64,
}

/// A place in the whole log of an extent.
#[derive(Clone, Copy, Debug, PartialEq, Eq)]
pub(crate) struct LogPlace {
    /// Which extent, 0 for the calls without a home.
    pub(crate) extent: u64,
    /// How many entries come before it.
    pub(crate) index: usize,
}

/// The lesser of two calls.
pub(crate) fn lesser(least: Option<CallPlace>, other: CallPlace) -> Option<CallPlace>
    ensures keeps { (client number : ℕ)
        → IsAtMost least client number → IsAtMost result client number }
    ensures at { IsAtMost result other.client other.number }
    ensures is { (result ≡ least) ⊎ (result ≡ Some other) }
{
    match least {
        None => Some(other),
        Some(place) => {
            if other.client < place.client
                || other.client == place.client && other.number < place.number
            {
                Some(other)
            } else {
                Some(place)
            }
        }
    }
}

/// The lesser of two chapters.
pub(crate) fn lesser_chapter(
    least: Option<ChapterPlace>,
    chapter: ChapterPlace,
) -> Option<ChapterPlace>
    ensures keeps { (extent index : ℕ)
        → IsChapterAtMost least extent index → IsChapterAtMost result extent index }
    ensures at { IsChapterAtMost result chapter.extent chapter.index }
    ensures is { (result ≡ least) ⊎ (result ≡ Some chapter) }
{
    match least {
        None => Some(chapter),
        Some(place) => {
            if chapter.extent < place.extent
                || chapter.extent == place.extent && chapter.index < place.index
            {
                Some(chapter)
            } else {
                Some(place)
            }
        }
    }
}
