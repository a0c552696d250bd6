//! The words that lines begin with, in the order of the lines.

ghost use Rattle.std.specs.Prelude.{◌≡◌};
ghost use Rattle.case_text.specs.Keyword.{after_field, keyword_of, least_of, may_stand, most_of, rank_of, text_of};

/// The greatest budget.
const MOST_STEPS: u32 = 200_000;

/// A line of a keyword and one number. They stand in this order.
#[derive(Clone, Copy)]
pub enum Field {
    Seed,
    Steps,
    Visits,
    Paths,
    Schedules,
}

impl Field {
    /// The least number that its line may have.
    pub fn least(self) -> u128
        ensures { result ≡ least_of self }
    {
        match self {
            Field::Seed => 0,
            _ => 1,
        }
    }

    /// The greatest number that its line may have. Not served yet: more than one path, and more than one schedule.
    pub fn most(self) -> u128
        ensures { result ≡ most_of self }
    {
        match self {
            Field::Seed => u128::from(u64::MAX),
            Field::Steps => u128::from(MOST_STEPS),
            Field::Visits => 1024,
            Field::Paths | Field::Schedules => 1,
        }
    }

    /// The keyword of the first line that may stand behind its line.
    pub fn after(self) -> Keyword
        ensures { result ≡ after_field self }
    {
        match self {
            Field::Seed => Keyword::Field(Field::Steps),
            Field::Steps => Keyword::Field(Field::Visits),
            Field::Visits => Keyword::Field(Field::Paths),
            Field::Paths => Keyword::Field(Field::Schedules),
            Field::Schedules => Keyword::Input,
        }
    }
}

/// The first word of a line.
#[derive(Clone, Copy)]
pub enum Keyword {
    Heading,
    Field(Field),
    Input,
    Watch,
    Turn,
    Race,
    End,
}

const KEYWORDS: [Keyword; 11] = [
    Keyword::Heading,
    Keyword::Field(Field::Seed),
    Keyword::Field(Field::Steps),
    Keyword::Field(Field::Visits),
    Keyword::Field(Field::Paths),
    Keyword::Field(Field::Schedules),
    Keyword::Input,
    Keyword::Watch,
    Keyword::Turn,
    Keyword::Race,
    Keyword::End,
];

impl Keyword {
    /// The keyword that the word is, if it is one.
    pub fn read(word: &[u8]) -> Option<Keyword>
        ensures { result ≡ keyword_of word.now }
    {
        KEYWORDS
            .iter()
            .find(|keyword| keyword.text() == word)
            .copied()
    }

    fn text(self) -> &'static [u8]
        ensures { result.now ≡ text_of self }
    {
        match self {
            Keyword::Heading => b"portend-case",
            Keyword::Field(Field::Seed) => b"seed",
            Keyword::Field(Field::Steps) => b"steps",
            Keyword::Field(Field::Visits) => b"visits",
            Keyword::Field(Field::Paths) => b"paths",
            Keyword::Field(Field::Schedules) => b"schedules",
            Keyword::Input => b"input",
            Keyword::Watch => b"watch",
            Keyword::Turn => b"turn",
            Keyword::Race => b"race",
            Keyword::End => b"end",
        }
    }

    /// How many keywords stand before it in the order of the lines.
    fn rank(self) -> u32
        ensures { result ≡ rank_of self }
    {
        match self {
            Keyword::Heading => 0,
            Keyword::Field(Field::Seed) => 1,
            Keyword::Field(Field::Steps) => 2,
            Keyword::Field(Field::Visits) => 3,
            Keyword::Field(Field::Paths) => 4,
            Keyword::Field(Field::Schedules) => 5,
            Keyword::Input => 6,
            Keyword::Watch => 7,
            Keyword::Turn => 8,
            Keyword::Race => 9,
            Keyword::End => 10,
        }
    }

    /// Whether a line of this keyword may stand where the first that may stand there is `next`. From the inputs
    /// on lines may be left out.
    pub fn may_stand(self, next: Option<Keyword>) -> bool
        ensures { result ≡ may_stand next self }
    {
        match next {
            None => false,
            Some(next) => {
                let first = next.rank();
                first == self.rank() || first >= 6 && first <= self.rank()
            }
        }
    }
}
