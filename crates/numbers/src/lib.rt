// The numbers of an end, as plain numbers: an end wraps them as its J or its I. next, take, back, is_used and is_sound are each that field of the rules'
// supply (take where there is a next one); kept and fresh start it, and after is what a step does to it. No function here is an entry: the crates above call them, and docs/PROMISES.md lists why.
#![tactic(auto)]

ghost use Rattle.std.specs.Prelude.{◌≡◌};
ghost use Rattle.rules.specs.Supply.{numbering, grown};
ghost use Rattle.ground.specs.Options.{option_back};
ghost use Rattle.numbers.specs.Numbers.{numbers_means, numbers_kept, numbers_fresh, numbers_taken, numbers_back, numbers_moved};

// The block of a fresh end.
const FRESH_BLOCK: u16 = 64;

// Last used and reserved up to, 0 to 4,294,967,295 each, last used at most reserved; block, 1 to 1,024, by which reserved grows. The number record
// holds reserved and block, so that it changes once in a block.
#[derive(Clone, Copy)]
pub struct Numbers {
    pub used: u32,
    pub reserved: u32,
    pub block: u16,
}

// What a step does to an end's numbers.
#[derive(Clone, Copy)]
pub enum Move {
    Stay,
    Take,
    Back,
}

#[tactic(auto, using(std::proofs::lemmas::Bool::Decides::nat_tests), unfolding(crate::proofs::Counting::counting))]
impl Numbers {
    // The numbers of a number record: all that is reserved counts as used.
    pub fn kept(reserved: u32, block: u16) -> Self
        ensures { result ≡ numbers_kept reserved block }
    {
        Numbers {
            used: reserved,
            reserved,
            block,
        }
    }

    // The numbers of a fresh end.
    pub fn fresh(used: u32) -> Self
        ensures { result ≡ numbers_fresh used }
    {
        Numbers::kept(used, FRESH_BLOCK)
    }

    // The number that is taken next; none: the numbers are spent.
    pub fn next(self) -> Option<u32>
        ensures { result ≡ option_back (numbering.next (numbers_means self)) }
    {
        self.used.checked_add(1)
    }

    // Reserved up to, when the next is taken: it grows where all of it is used, and stops at the largest number.
    fn grown(self) -> u32
        ensures { result ≡ grown (numbers_means self) }
    {
        if self.used == self.reserved {
            self.reserved.saturating_add(u32::from(self.block))
        } else {
            self.reserved
        }
    }

    // What is left when the next has been taken; numbers that are spent stay.
    fn take(self) -> Self
        ensures { result ≡ numbers_taken self }
    {
        match self.next() {
            Some(used) => Numbers {
                used,
                reserved: self.grown(),
                ..self
            },
            None => self,
        }
    }

    // What coming back makes of them.
    pub fn back(self) -> Self
        ensures { result ≡ numbers_back (numbering.back (numbers_means self)) }
    {
        Numbers {
            used: self.used.max(self.reserved),
            ..self
        }
    }

    // What a step leaves.
    pub fn after(self, step: Move) -> Self
        ensures { result ≡ numbers_moved step self }
    {
        match step {
            Move::Stay => self,
            Move::Take => self.take(),
            Move::Back => self.back(),
        }
    }

    pub fn is_used(self, number: u32) -> bool
        ensures { result ≡ numbering.used (numbers_means self) number }
    {
        number <= self.used
    }

    // What a well-formed end has.
    pub fn is_sound(self) -> bool
        ensures { result ≡ numbering.sound (numbers_means self) }
    {
        self.used <= self.reserved && ground::is_block(self.block)
    }
}
