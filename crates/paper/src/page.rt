// What stands at fixed places of a page.
ghost use Rattle.std.specs.Prelude.{◌≡◌};
ghost use Rattle.paper.specs.Headers.{with_count, with_start, with_end, with_effective};

// Eight bytes: the length of a suffix, where its payload begins in the body, and its head.
#[derive(Clone, Copy)]
pub struct Slot {
    pub len: u16,
    pub offset: u16,
    pub head: u32,
}

// The numbers of a header, read once. The inline prefix and the eight hints stay where they stand.
#[derive(Clone, Copy)]
pub struct Header {
    pub height: u16,
    pub count: u16,
    pub start: u16,
    pub end: u16,
    pub timestamp: u64,
    pub lower: Slot,
    pub lower_value: u64,
    pub upper: Slot,
    pub effective: u32,
    pub initialized: u8,
    pub flag: u8,
    pub prefix_len: u16,
}

// An edit reads the header once, edits it field by field and writes it back.
impl Header {
    // The header with another count.
    #[tactic(auto, unfolding(crate::specs::Headers::with_count))]
    pub fn with_count(mut self, count: u16) -> Header
        ensures { result ≡ with_count self count }
    {
        self.count = count;
        self
    }

    // The header with another start.
    #[tactic(auto, unfolding(crate::specs::Headers::with_start))]
    pub fn with_start(mut self, start: u16) -> Header
        ensures { result ≡ with_start self start }
    {
        self.start = start;
        self
    }

    // The header with another end.
    #[tactic(auto, unfolding(crate::specs::Headers::with_end))]
    pub fn with_end(mut self, end: u16) -> Header
        ensures { result ≡ with_end self end }
    {
        self.end = end;
        self
    }

    // The header with another effective space.
    #[tactic(auto, unfolding(crate::specs::Headers::with_effective))]
    pub fn with_effective(mut self, effective: u32) -> Header
        ensures { result ≡ with_effective self effective }
    {
        self.effective = effective;
        self
    }
}
