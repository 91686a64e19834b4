//! Where the cache stands between two steps.

/// What the cache is about to do. A block is named by its number, which is below `CACHE_BLOCKS`; the hand is told beside it.
#[derive(Clone, Copy)]
pub enum CachePlace {
    /// Nothing.
    Resting,
    /// Nothing: the block has its page.
    Found { block: u32 },
    /// It reads whether there is a table for the block's page.
    LookingRegion { block: u32 },
    /// It reads the entry of the block's page.
    LookingPage { block: u32 },
    /// It takes a page for the block.
    Taking { block: u32 },
    /// The block has a page, and it reads the block into it.
    Filling { block: u32 },
    /// It maps the block's page onto itself, since reading has made it dirty.
    Settling { block: u32 },
    /// No page was to be had. It reads whether there is a table for the page of the block at hand. So many blocks, from this one on,
    /// are left to look at before it is known that none is cached.
    HandRegion { block: u32, left: u32 },
    /// The same, and it reads the entry of the page of the block at hand.
    HandPage { block: u32, left: u32 },
    /// The page at hand is dirty, and it writes it to the disk.
    WritingBack { block: u32 },
    /// The page at hand was used, and it maps it onto itself, so that it counts as not used.
    Passing { block: u32 },
    /// The page at hand is given up, and it maps it where the block has its page.
    Moving { block: u32 },
    /// The page at hand is the block's too, and it takes it away from where it was.
    Leaving { block: u32 },
    /// The page at hand is given up, but there is no table for the block's, and it takes it away, so that there is one.
    Freeing { block: u32 },
    /// No block is cached, and it takes a page for the block once more.
    TakingLast { block: u32 },
    /// It flushes, and reads whether there is a table for the pages from this block on. Pages before are clean.
    FlushRegion { at: u32 },
    /// It flushes, and reads the entry of the page of this block.
    FlushPage { at: u32 },
    /// The page of this block is dirty, and it writes it to the disk.
    FlushWriting { at: u32 },
    /// It maps the page of this block onto itself, so that it is clean.
    FlushSettling { at: u32 },
}

/// Where the cache stands, and the hand: the number of the block that is looked at first when a page is to be given up.
#[derive(Clone, Copy)]
pub struct CacheState {
    pub place: CachePlace,
    pub hand: u32,
}
