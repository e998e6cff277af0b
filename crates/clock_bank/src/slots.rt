// The slots of an advance: one to take from, or none, and one to post to, or none.
ghost use Rattle.std.specs.Prelude.{◌≡◌, ◌&&◌, Some, None};
ghost use Rattle.clock_bank.specs.Faults.{is_slot_of};

#[derive(Clone, Copy, PartialEq, Eq, Debug)]
pub struct Slots {
    pub take: Option<u32>,
    pub post: Option<u32>,
}

impl Slots {
    pub const NONE: Slots = Slots {
        take: None,
        post: None,
    };

    pub fn take_from(slot: u32) -> Slots
        ensures take { result.take ≡ Some slot }
        ensures post { result.post ≡ None }
    {
        Slots {
            take: Some(slot),
            ..Slots::NONE
        }
    }

    pub fn post_to(slot: u32) -> Slots
        ensures take { result.take ≡ None }
        ensures post { result.post ≡ Some slot }
    {
        Slots {
            post: Some(slot),
            ..Slots::NONE
        }
    }

    // Whether a bank of so many slots has those that are given.
    pub fn are_below(self, count: u32) -> bool
        ensures { result ≡ is_slot_of count self.take && is_slot_of count self.post }
    {
        self.take.is_none_or(|slot| slot < count) && self.post.is_none_or(|slot| slot < count)
    }
}
