// The refusals by their numbers.
ghost use Rattle.std.specs.Prelude.{◌≡◌};
ghost use Rattle.ground.specs.Refusals.{number_of};

#[derive(Clone, Copy, PartialEq, Eq)]
pub enum Refusal {
    NoAction = 1,
    IllFormed = 2,
    NoPlace = 3,
    IsDown = 4,
    IsUp = 5,
    OtherMode = 6,
    UnknownNumber = 7,
    NumbersSpent = 8,
    NoRoom = 9,
    TooManyCopies = 10,
    NoMessage = 11,
    WrongLength = 12,
    WrongMark = 13,
    WrongVersion = 14,
    WrongField = 15,
}

impl From<Refusal> for u8 {
    ghost from_gives = { λ r n. n ≡ number_of r };

    fn from(refusal: Refusal) -> u8 {
        refusal as u8
    }
}
