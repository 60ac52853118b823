//! Moments, and their text in the form of ISO 8601.

ghost use Rattle.std.specs.Prelude.{◌≡◌, ◌≢◌, ◌≤◌, ◌<◌, ◌+◌, ◌%◌, ℕ, length, pos, ◌≤ℤ◌, SomeIff, IfSome, IfNone, Some};
ghost use Rattle.path_text.specs.Moment.{last_moment, moment_text, moment_of, date_time_text, day_number, year_on, month_on, day_on, told_two};
ghost use Rattle.jiff.specs.Words.{epoch_day, IsDate};

use jiff::ToSpan;
use jiff::civil::{Date, date};
use std::marker::Model;

/// A moment: whole seconds since 1970-01-01T00:00:00Z (UTC, with no leap seconds), from there to
/// 9999-12-31T23:59:59Z. Contracts see it as that number.
#[derive(Clone, Copy, Debug, PartialEq, Eq, PartialOrd, Ord)]
pub struct Moment {
    seconds: u64,
}

impl Model for Moment {
    ghost Value = { ℕ };

    ghost view = { λ m. m.seconds };

    ghost invariant = { λ m. m.seconds ≤ last_moment };

    ghost inverse = { λ n. record { seconds = n } };
}

/// The seconds of 9999-12-31T23:59:59Z.
const LAST_SECOND: u64 = 253_402_300_799;

/// The seconds of a day.
const DAY_SECONDS: u64 = 86_400;

impl Moment {
    /// The moment that many seconds after 1970-01-01T00:00:00Z; None after the year 9999.
    pub fn new(seconds: u64) -> Option<Moment>
        ensures { SomeIff result (seconds ≤ last_moment) seconds }
    {
        if seconds <= LAST_SECOND {
            Some(Moment { seconds })
        } else {
            None
        }
    }

    /// The seconds since 1970-01-01T00:00:00Z.
    pub fn seconds(&self) -> u64
        ensures value { result ≡ self.now }
        ensures bound { result ≤ last_moment }
    {
        self.seconds
    }

    /// The text of ISO 8601 in UTC, as `2014-10-24T12:00:00Z`.
    pub fn text(&self) -> [u8; 20]
        ensures { result ≡ moment_text self.now }
    {
        let date = date_on(self.seconds / DAY_SECONDS);
        let time = (self.seconds % DAY_SECONDS) as u32;
        date_time(&date, time / 3_600, time / 60 % 60, time % 60)
    }

    /// The moment whose text this is, byte for byte as [`Moment::text`] writes it. None for any other
    /// text, as one with a day that its month has not, with the second 60, or before the year 1970.
    pub fn read(text: &[u8]) -> Option<Moment>
        ensures value { result ≡ moment_of text.now }
        ensures found { IfSome result (λ m. (m ≤ last_moment) × (text.now ≡ moment_text m)) }
        ensures none { IfNone result ((m : ℕ) → m ≤ last_moment → text.now ≢ moment_text m) }
    {
        let moment = told(text)?;
        if moment.text().as_slice() == text {
            Some(moment)
        } else {
            None
        }
    }
}

/// A date of the calendar from the year 1970 on.
#[derive(Clone, Copy)]
struct CivilDate {
    year: u32,
    month: u32,
    day: u32,
}

/// The first day of all moments, 1970-01-01.
fn first_day() -> Date
    ensures { epoch_day result ≡ pos 0 }
{
    date(1970, 1, 1)
}

/// The day that many days after the first, up to 9999-12-31.
fn calendar_day(day: u64) -> Date
    requires { day ≤ 2_932_896 }
    ensures { epoch_day result ≡ pos day }
{
    first_day().checked_add((day as i64).days()).unwrap()
}

/// The parts of that day.
fn date_on(day: u64) -> CivilDate
    requires { day ≤ 2_932_896 }
    ensures year { result.year ≡ year_on day }
    ensures month { result.month ≡ month_on day }
    ensures day { result.day ≡ day_on day }
{
    let date = calendar_day(day);
    CivilDate {
        year: date.year() as u32,
        month: date.month() as u32,
        day: date.day() as u32,
    }
}

/// The text of a date and a time of day.
fn date_time(date: &CivilDate, hour: u32, minute: u32, second: u32) -> [u8; 20]
    ensures { result ≡ date_time_text date.now.year date.now.month date.now.day hour minute second }
{
    let CivilDate { year, month, day } = *date;
    [
        digit(year / 1000),
        digit(year / 100),
        digit(year / 10),
        digit(year),
        b'-',
        digit(month / 10),
        digit(month),
        b'-',
        digit(day / 10),
        digit(day),
        b'T',
        digit(hour / 10),
        digit(hour),
        b':',
        digit(minute / 10),
        digit(minute),
        b':',
        digit(second / 10),
        digit(second),
        b'Z',
    ]
}

/// The last decimal digit of a number.
fn digit(number: u32) -> u8
    ensures { result ≡ 48 + number % 10 }
{
    b'0' + (number % 10) as u8
}

/// The moment that the digits tell, where they tell a date from 1970 on; the other bytes are not looked at.
fn told(text: &[u8]) -> Option<Moment>
    ensures bound { IfSome result (λ m. m ≤ last_moment) }
    ensures only { (m : ℕ) → m ≤ last_moment → text.now ≡ moment_text m → result ≡ Some m }
{
    if text.len() != 20 {
        return None;
    }
    let year = 100 * told_pair(text, 0) + told_pair(text, 2);
    let month = told_pair(text, 5);
    let date = told_pair(text, 8);
    let Some(day) = day_number(year, month, date) else {
        return None;
    };
    let hours = told_pair(text, 11);
    let minutes = told_pair(text, 14);
    let seconds = told_pair(text, 17);
    Moment::new(DAY_SECONDS * day + u64::from(3_600 * hours + 60 * minutes + seconds))
}

/// The days from 1970-01-01 to a date of the calendar; None for one before it, and where there is none.
fn day_number(year: u32, month: u32, date: u32) -> Option<u64>
    ensures bound { IfSome result (λ n. n ≤ 2_932_896) }
    ensures value { IfSome result (λ n. n ≡ day_number year month date) }
    ensures none { IfNone result (1970 ≤ year → ¬ (IsDate (pos year) (pos month) (pos date))) }
{
    if year < 1970 || year > 9999 || month > 12 || date > 31 {
        return None;
    }
    let Ok(date) = Date::new(year as i16, month as i8, date as i8) else {
        return None;
    };
    let seconds = date.duration_since(first_day()).as_secs();
    Some(seconds as u64 / DAY_SECONDS)
}

/// The number that two digits tell; other bytes tell some number too.
fn told_pair(text: &[u8], at: usize) -> u32
    requires { at + 1 < length text.now }
    ensures value { result ≡ told_two text.now at }
    ensures bound { result ≤ 2_277 }
{
    10 * u32::from(text[at].saturating_sub(b'0')) + u32::from(text[at + 1].saturating_sub(b'0'))
}

#[cfg(test)]
mod tests {
    use super::*;

    #[test]
    fn writes_and_reads_moments(rt: HostRuntime) {
        let table: [(u64, &[u8; 20]); 9] = [
            (0, b"1970-01-01T00:00:00Z"),
            (86_399, b"1970-01-01T23:59:59Z"),
            (951_782_400, b"2000-02-29T00:00:00Z"),
            (1_230_767_999, b"2008-12-31T23:59:59Z"),
            (1_414_152_000, b"2014-10-24T12:00:00Z"),
            (1_234_567_890, b"2009-02-13T23:31:30Z"),
            (4_107_542_399, b"2100-02-28T23:59:59Z"),
            (4_107_542_400, b"2100-03-01T00:00:00Z"),
            (253_402_300_799, b"9999-12-31T23:59:59Z"),
        ];
        for (seconds, text) in table {
            let moment = Moment::new(seconds).expect(&rt, "a moment");
            assert_eq!(rt; moment.text(), *text);
            assert_eq!(rt; moment.seconds(), seconds);
            assert_eq!(rt; Moment::read(text.as_slice()), Some(moment));
        }
    }

    #[test]
    fn refuses_other_texts(rt: HostRuntime) {
        let table: [&[u8]; 16] = [
            b"",
            b"2014-02-29T00:00:00Z",
            b"2014-04-31T00:00:00Z",
            b"2014-00-10T00:00:00Z",
            b"2014-13-10T00:00:00Z",
            b"2014-10-00T00:00:00Z",
            b"2014-10-24T24:00:00Z",
            b"2014-10-24T12:60:00Z",
            b"2014-10-24T12:00:60Z",
            b"2014-10-24T12:00:00z",
            b"2014-10-24 12:00:00Z",
            b"1969-12-31T23:59:59Z",
            b"2014-10-24T12:00:00",
            b"2014-10-24T12:00:00Z ",
            b"2014-1a-24T12:00:00Z",
            b"2014-10-24T12:00:0:Z",
        ];
        for text in table {
            assert_eq!(rt; Moment::read(text), None, "at {text:?}");
        }
        assert_eq!(rt; Moment::new(253_402_300_800), None);
    }
}
