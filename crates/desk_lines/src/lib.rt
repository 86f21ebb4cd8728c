// The lines that the desk program prints, each put on a page. What is said of them stands in specs/.
#![tactic(auto)]

ghost use Rattle.std.specs.Prelude.{◌≡◌, ◌+◌, ◌≤◌, length};
ghost use Rattle.rules.specs.Numbers.{number_of_article};
ghost use Rattle.text.specs.Page.{places, Puts};
ghost use Rattle.text.specs.Passes.{roomy};
ghost use Rattle.desk_lines.specs.Lines.{spaced, numbered, span_text, daily_text, weekly_text, rest_text, article_text, breach_text, weeks_text};

use recording::Span;
use rules::{Article, Weeks};
use text::Page;

// A number after a space.
fn put_spaced(page: &mut Page, n: u32)
    requires { page.old.len + 7 ≤ places }
    ensures text { Puts page.old (spaced n) page.new }
    ensures short { page.new.len ≤ page.old.len + 7 }
{
    page.put(b" ");
    page.put_number(n);
}

/// A line of a name and one number.
pub fn put_numbered(page: &mut Page, name: &[u8], n: u32)
    requires { page.old.len + length name.now + 9 ≤ places }
    ensures text { Puts page.old (numbered name.now n) page.new }
    ensures short { page.new.len ≤ page.old.len + length name.now + 9 }
{
    page.put(name);
    put_spaced(page, n);
    page.put(b")\n");
}

// A name and two numbers.
fn put_span(page: &mut Page, name: &[u8], first: u32, last: u32)
    requires { page.old.len + length name.now + 14 ≤ places }
    ensures text { Puts page.old (span_text name.now first last) page.new }
    ensures short { page.new.len ≤ page.old.len + length name.now + 14 }
{
    page.put(name);
    put_spaced(page, first);
    put_spaced(page, last);
}

/// A rest's line, by the kind, the week and the carrier of its entry in the reading.
pub fn put_rest(page: &mut Page, rest: Span, kind: u32, week: u32, carrier: u32)
    requires { page.old.len ≤ roomy }
    ensures { Puts page.old (rest_text rest.start rest.end kind week carrier) page.new }
{
    if kind == 1 {
        put_span(page, b"(weekly", rest.start, rest.end);
        put_spaced(page, week);
        put_spaced(page, carrier);
    } else {
        put_span(page, b"(daily", rest.start, rest.end);
    }
    page.put(b")\n");
}

// The article as it is written.
#[tactic(auto, unfolding(crate::specs::Lines::article_text))]
fn article_name(article: Article) -> &'static [u8]
    ensures name { result.now ≡ article_text (number_of_article article) }
    ensures short { length result.now ≤ 3 }
{
    match article {
        Article::Breaks => b"7",
        Article::DailyDriving => b"6.1",
        Article::WeeklyDriving => b"6.2",
        Article::FortnightlyDriving => b"6.3",
        Article::DailyRests => b"8.2",
        Article::Rests => b"8",
    }
}

/// The line of a breach.
pub fn put_breach(page: &mut Page, minute: u32, article: Article)
    requires { page.old.len + 24 ≤ roomy }
    ensures text { Puts page.old (breach_text minute (number_of_article article)) page.new }
    ensures short { page.new.len ≤ page.old.len + 20 }
{
    page.put(b"(breach");
    put_spaced(page, minute);
    page.put(b" ");
    page.put(article_name(article));
    page.put(b")\n");
}

/// The line of a span of weeks.
pub fn put_weeks(page: &mut Page, weeks: Weeks)
    requires { page.old.len ≤ roomy }
    ensures { Puts page.old (weeks_text weeks.first weeks.last) page.new }
{
    put_span(page, b"(weeks", weeks.first, weeks.last);
    page.put(b")\n");
}
