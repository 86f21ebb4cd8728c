// The account of the fixed rules, run by run, in the regulation's order: articles 6(1), 6(2), 6(3), 7, 8(2), which are rules 2, 3, 4, 1 and 5.
#![tactic(auto)]

ghost use Rattle.std.specs.Prelude.{◌≡◌, ◌+◌, ◌<◌, ◌≤◌};
ghost use Rattle.recording.specs.Words.{code_of};
ghost use Rattle.recording.specs.Operations.{total_at_most};
ghost use Rattle.rules_limits.specs.Runs.{Bounded, Ran};
ghost use Rattle.rules_limits.specs.Parts.{in_week, part_after, Taken};

use recording::{Activity, Run};
use rules_limits::Account;

// The account after a part of a run: no week ends before its last minute, and it is one minute or changes nothing that is broken.
fn part_after(account: Account, part: Run) -> Account
    requires { Bounded account × (account.now + part.minutes ≤ total_at_most) }
    ensures { result ≡ part_after account (code_of part.activity) part.minutes }
{
    let now = account.now + part.minutes;
    let week = account.week;
    match part.activity {
        Activity::Rest => Account {
            now,
            week: week.at_minute(now),
            ..account
        },
        Activity::Availability | Activity::OtherWork | Activity::Driving => {
            let rest = account.now - account.from;
            let driving = rules_limits::driving_in(part);
            let day = account
                .day
                .after_rest(rest, account.now, week.end)
                .after_driving(driving);
            let week = week.after_driving(driving);
            let accumulated = rules_limits::accumulated_more(
                driving,
                rules_limits::rested_for(rest, account.accumulated),
            );
            let here = rules_limits::broken_at(now, day, week, accumulated);
            let (broken, first) = rules_limits::breaches_after(
                account.broken,
                account.first,
                now,
                here,
            );
            Account {
                now,
                from: now,
                day,
                week: week.at_minute(now),
                accumulated,
                broken,
                first,
            }
        }
    }
}

// How many of so many minutes after a minute are in the week that ends at `end`, and one where there is none.
fn in_week(minute: u32, end: u32, minutes: u32) -> u32
    ensures { result ≡ in_week minute end minutes }
{
    minutes.min(end.saturating_sub(minute).max(1))
}

// The next part of a run, its minutes and the account after it: those of one week, halved until they change nothing that is broken or one is left.
fn next_part(account: Account, run: Run) -> (u32, Account)
    requires { Bounded account × (account.now + run.minutes ≤ total_at_most) × (0 < run.minutes) }
    ensures { Taken account (code_of run.activity) run.minutes result.0 result.1 }
{
    // Halving, left at the first part that changes nothing: no chain says it more plainly.
    let mut minutes = in_week(account.now, account.week.end, run.minutes);
    while 1 < minutes {
        let after = part_after(account, Run { minutes, ..run });
        let unchanged = (after.broken == account.broken) & (after.first == account.first);
        if unchanged {
            return (minutes, after);
        }
        minutes /= 2;
    }
    (1, part_after(account, Run { minutes: 1, ..run }))
}

/// The account after a run.
pub fn run(account: Account, run: Run) -> Account
    requires { Bounded account × (account.now + run.minutes ≤ total_at_most) }
    ensures { Ran account (code_of run.activity) run.minutes result }
{
    let mut after = account;
    let mut left = run.minutes;
    while 0 < left {
        let (minutes, next) = next_part(
            after,
            Run {
                minutes: left,
                ..run
            },
        );
        left -= minutes;
        after = next;
    }
    after
}
