// Laws of a machine of many seats.
ghost use Rattle.neph_accounts.specs.Laws.{SeatsAreAll, IdsNameSeats, NewPoolIsFree, HasOneUse, UsesExclude, CountsPages, UsesAllFrames, ColoursAreFrames, FreeIsKept, UsesAreCounts, CountTellsShared, SoleIsOne, StartsApart, QuietKeeps, LineKeeps, CopyFollows, MoveFollows, EndFollows, CommitFollows};

/// Where no two seats share a name and each name is some seat's, what each seat has is all.
pub fn seats_are_all()
    ensures { SeatsAreAll }
{}

/// The ids of live domains and of children in flight, and all others for the heap, name the seats.
pub fn ids_name_seats()
    ensures { IdsNameSeats }
{}

/// A new pool has a heap that keeps all frames free, and no domain.
pub fn new_pool_is_free()
    ensures { NewPoolIsFree }
{}

/// Each frame is one of three: free, private to a page or another use, or shared by pages.
pub fn one_use()
    ensures { HasOneUse }
{}

/// No frame is two of free, private and shared.
pub fn uses_exclude()
    ensures { UsesExclude }
{}

/// A frame's count is the number of its pages, with those of children in flight, and other uses.
pub fn counts_pages()
    ensures { CountsPages }
{}

/// The free frames, those under pages and the others are all frames of the pool.
pub fn uses_all_frames()
    ensures { UsesAllFrames }
{}

/// There are as many frames under pages as colours on pages.
pub fn colours_are_frames()
    ensures { ColoursAreFrames }
{}

/// The free list is as long as the definitions say.
pub fn free_is_kept()
    ensures { FreeIsKept }
{}

/// The numbers of frames that the definitions count are those that are used so, and they are all.
pub fn uses_are_counts()
    ensures { UsesAreCounts }
{}

/// The pool's count of a page's frame tells whether the page's colour is shared.
pub fn count_tells_shared()
    ensures { CountTellsShared }
{}

/// A page whose frame a seat has to itself shares its colour with no other.
pub fn sole_is_one()
    ensures { SoleIsOne }
{}

/// At the start colours stand for frames.
pub fn starts_apart()
    ensures { StartsApart }
{}

/// A page step, a spare taken and a copy that was found needed change no colour.
pub fn quiet_keeps()
    ensures { QuietKeeps }
{}

/// A line that copies no page and isn't an end changes no colour.
pub fn line_keeps()
    ensures { LineKeeps }
{}

/// A page that is copied gets a colour and a frame of its own.
pub fn copy_follows()
    ensures { CopyFollows }
{}

/// A page that moves from a frame under no other page keeps its colour.
pub fn move_follows()
    ensures { MoveFollows }
{}

/// The end of a domain takes the colours of its pages away.
pub fn end_follows()
    ensures { EndFollows }
{}

/// A child has its parent's colours where it shares a frame, and else new ones.
pub fn commit_follows()
    ensures { CommitFollows }
{}
