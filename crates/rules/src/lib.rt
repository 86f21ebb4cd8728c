// The rules of driving times and rests, and readings of a recording. What is said of them stands in specs/.
#![tactic(auto)]

ghost use Rattle.std.specs.Prelude.{◌≡◌, ⊤};
ghost use Rattle.rules.specs.Numbers.{number_of_rule, number_of_article, place_of_article, article_of};
ghost use Rattle.rules.specs.Fixed.{either_broken};

use std::ops::BitOr;

/// The eleven rules of a lawful reading. The first five are fixed: they are the same for every reading of a recording.
#[derive(Clone, Copy, Debug, PartialEq, Eq)]
pub enum Rule {
    AccumulatedDriving,
    DailyDriving,
    WeeklyDriving,
    FortnightlyDriving,
    DailyRest,
    EntryForm,
    NetLength,
    CompensationInTime,
    ShortenedRests,
    WeeklyRestGap,
    WeeklyRests,
}

// The number of a rule.
impl From<Rule> for u32 {
    ghost from_gives = { λ r n. n ≡ number_of_rule r };

    fn from(rule: Rule) -> u32 {
        match rule {
            Rule::AccumulatedDriving => 1,
            Rule::DailyDriving => 2,
            Rule::WeeklyDriving => 3,
            Rule::FortnightlyDriving => 4,
            Rule::DailyRest => 5,
            Rule::EntryForm => 6,
            Rule::NetLength => 7,
            Rule::CompensationInTime => 8,
            Rule::ShortenedRests => 9,
            Rule::WeeklyRestGap => 10,
            Rule::WeeklyRests => 11,
        }
    }
}

/// The articles that a recording can break: 7, of breaks; 6(1), 6(2) and 6(3), of a day's, a week's and a fortnight's driving; 8(2), of daily rests; and
/// 8 as a whole, of rests.
#[derive(Clone, Copy, Debug, PartialEq, Eq)]
pub enum Article {
    Breaks,
    DailyDriving,
    WeeklyDriving,
    FortnightlyDriving,
    DailyRests,
    Rests,
}

// The number of an article, as a verdict tells it: that of its rule, and 6 of article 8 as a whole.
impl From<Article> for u32 {
    ghost from_gives = { λ a n. n ≡ number_of_article a };

    fn from(article: Article) -> u32 {
        match article {
            Article::Breaks => 1,
            Article::DailyDriving => 2,
            Article::WeeklyDriving => 3,
            Article::FortnightlyDriving => 4,
            Article::DailyRests => 5,
            Article::Rests => 6,
        }
    }
}

// The article that a rule is of.
impl From<Rule> for Article {
    ghost from_gives = { λ r a. a ≡ article_of r };

    fn from(rule: Rule) -> Article {
        match rule {
            Rule::AccumulatedDriving => Article::Breaks,
            Rule::DailyDriving => Article::DailyDriving,
            Rule::WeeklyDriving => Article::WeeklyDriving,
            Rule::FortnightlyDriving => Article::FortnightlyDriving,
            Rule::DailyRest => Article::DailyRests,
            _ => Article::Rests,
        }
    }
}

impl Article {
    /// The place of an article in the regulation's order: 6(1), 6(2), 6(3), 7, 8(2); article 8 as a whole stands last.
    pub fn place(self) -> u32
        ensures { result ≡ place_of_article self }
    {
        match self {
            Article::DailyDriving => 1,
            Article::WeeklyDriving => 2,
            Article::FortnightlyDriving => 3,
            Article::Breaks => 4,
            Article::DailyRests => 5,
            Article::Rests => 6,
        }
    }
}

/// The driving sum of rule 1, and whether a split break has begun.
#[derive(Clone, Copy, Debug, PartialEq, Eq)]
pub struct Accumulated {
    pub sum: u32,
    pub split: bool,
}

/// Which of the fixed rules are broken, in the regulation's order: a day's driving, 6(1), a week's, 6(2), and a fortnight's, 6(3), the breaks
/// of article 7, and the daily rests of 8(2).
#[derive(Clone, Copy, Debug, Default, PartialEq, Eq)]
pub struct Breaches {
    pub daily: bool,
    pub weekly: bool,
    pub fortnightly: bool,
    pub breaks: bool,
    pub rests: bool,
}

// What is broken by one account or by the other.
impl BitOr for Breaches {
    type Output = Breaches;

    ghost bitor_gives = { λ a b r. r ≡ either_broken a b };

    fn bitor(self, other: Breaches) -> Breaches {
        Breaches {
            daily: self.daily | other.daily,
            weekly: self.weekly | other.weekly,
            fortnightly: self.fortnightly | other.fortnightly,
            breaks: self.breaks | other.breaks,
            rests: self.rests | other.rests,
        }
    }
}

/// What a weekly rest is: regular, or reduced by so many minutes.
#[derive(Clone, Copy, Debug, PartialEq, Eq)]
pub enum Standing {
    Regular,
    Reduced(u32),
}

/// What a reading takes a long rest for.
#[derive(Clone, Copy, Debug, PartialEq, Eq)]
pub enum Kind {
    Daily,
    Weekly(Standing),
}

/// A span of consecutive weeks: its first and its last, from 0. Callers in C lend a list of them.
#[repr(C)]
#[derive(Clone, Copy, Debug, PartialEq, Eq)]
pub struct Weeks {
    pub first: u32,
    pub last: u32,
}
