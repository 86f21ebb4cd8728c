// The fixed rules in one walk over a recording, in the regulation's order: articles 6(1), 6(2), 6(3), 7, 8(2), which are rules 2, 3, 4, 1 and 5;
// and what the later rules ask of its long rests.
#![tactic(auto)]

ghost use Rattle.std.specs.Prelude.{◌≡◌, take};
ghost use Rattle.recording.specs.Words.{minutes_of};
ghost use Rattle.recording.specs.Scan.{words_in};
ghost use Rattle.rules.specs.Operations.{fixed_tested, article_tested};
ghost use Rattle.rules_limits.specs.Account.{account_from, opening};
ghost use Rattle.rules_fixed.specs.Walk.{Surveyed};
ghost use Rattle.rules_fixed.specs.Answers.{rule_answer, place_answer};

use recording::{Place, Recording, Refusal, Run};
use rules::{Article, Rule};
use rules_limits::Account;

/// What is found of a recording: the place at its end, with the long rests' count, and the account.
#[derive(Clone, Copy, Debug, PartialEq, Eq)]
pub struct Survey {
    pub place: Place,
    pub account: Account,
}

// The account of the first m minutes, in one walk over the words. The first word is taken in the same loop: a second call of the account's step would make the
// walk a fifth slower.
fn account_of(recording: Recording, m: u32) -> Account
    ensures { result ≡ account_from opening (take m (minutes_of (words_in recording.entry))) }
{
    let mut account = Account::opening();
    let mut left = m;
    let mut word = recording.head;
    let mut words = recording.words;
    'walk: loop {
        let run = Run::from(word);
        let minutes = left.min(run.minutes);
        account = rules_account::run(account, Run { minutes, ..run });
        left -= minutes;
        let Some((&next, later)) = words.split_first() else {
            break 'walk account;
        };
        word = next;
        words = later;
    }
}

/// What the rules ask of a recording: its place at the end, the long rests' starts, ends and numbers by rule 9 in the lent slices, as far as they reach,
/// and the account.
pub fn survey_of(
    recording: Recording,
    starts: &mut [u32],
    ends: &mut [u32],
    nets: &mut [u32],
) -> Survey
    ensures { Surveyed (words_in recording.entry) starts.old ends.old nets.old result starts.new ends.new nets.new }
{
    let place = recording::scan(recording, starts, ends);
    rules_nets::put_nets(recording, nets);
    let account = account_of(recording, place.now);
    Survey { place, account }
}

// Each of the two tests takes weighing's answer apart itself.

/// The fixed test for a stretch of m minutes: weighing's refusals, or that of a stretch over the total; else the smallest broken rule of 1 to 5.
pub fn fixed_test(words: &[u32], m: u32) -> Result<Option<Rule>, Refusal>
    ensures { rule_answer result ≡ fixed_tested words.now m }
{
    let weighing = recording::weigh(words);
    let Ok(measure) = weighing else {
        return Err(weighing.unwrap_err());
    };
    if measure.total < m {
        return Err(Refusal::StretchTooLong);
    }
    let account = account_of(Recording::new(words), m);
    Ok(rules_limits::smallest_rule(account.broken))
}

/// The article test for a stretch of m minutes: the same refusals; else the first broken of articles 6(1), 6(2), 6(3), 7 and 8(2).
pub fn article_test(words: &[u32], m: u32) -> Result<Option<Article>, Refusal>
    ensures { place_answer result ≡ article_tested words.now m }
{
    let weighing = recording::weigh(words);
    let Ok(measure) = weighing else {
        return Err(weighing.unwrap_err());
    };
    if m > measure.total {
        return Err(Refusal::StretchTooLong);
    }
    let account = account_of(Recording::new(words), m);
    Ok(rules_limits::first_article(account.broken))
}
