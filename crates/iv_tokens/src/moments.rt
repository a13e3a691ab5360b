//! `moment_in`: the second that a text names.
ghost use Rattle.std.specs.Prelude.{◌≡◌, ◌<◌, ◌≤◌, ◌+◌, IfOk, length, map};
ghost use Rattle.iv_tokens.specs.Moments.{days_of_month, days_of_months, days_of_year, days_of_years, has_30_days, is_leap, is_moment, is_shaped, moment_in, read_of, seconds_of, shape_of, two_at};

use std::alloc::{AllocError, Global};
use std::marker::Model;

/// A moment by its parts.
#[derive(Drop)]
struct Moment {
    year: u64,
    month: u64,
    day: u64,
    hour: u64,
    minute: u64,
    second: u64,
}

impl Model for Moment {
    ghost use Rattle.iv_tokens.specs.Moments.{Moment};

    ghost Value = { Moment };

    ghost view = { λ m. record { year = m.year; month = m.month; day = m.day; hour = m.hour; minute = m.minute; second = m.second } };
}

/// Whether a year has a 29th of February.
fn is_leap(year: u64) -> bool
    ensures { result ≡ is_leap year }
{
    year % 4 == 0 && (!(year % 100 == 0) || year % 400 == 0)
}

/// The days of a year.
fn days_of_year(year: u64) -> u64
    ensures { result ≡ days_of_year year }
{
    if is_leap(year) { 366 } else { 365 }
}

/// Whether a month has 30 days.
fn has_30_days(month: u64) -> bool
    ensures { result ≡ has_30_days month }
{
    month == 4 || month == 6 || month == 9 || month == 11
}

/// The days of a month.
fn days_of_month(year: u64, month: u64) -> u64
    ensures days { result ≡ days_of_month year month }
    ensures bound { result ≤ 31 }
{
    if month == 2 {
        days_of_year(year) - 337
    } else if has_30_days(month) {
        30
    } else {
        31
    }
}

/// The days of as many years from 1970 on.
fn days_of_years(count: u64) -> u64
    requires { count ≤ 1000000 }
    ensures days { result ≡ days_of_years count }
    ensures bound { result ≤ 366000000 }
{
    let mut days = 0;
    for at in 0..count {
        days = days + days_of_year(1970 + at);
    }
    days
}

/// The days of the first months of a year.
fn days_of_months(year: u64, count: u64) -> u64
    requires { count ≤ 12 }
    ensures days { result ≡ days_of_months year count }
    ensures bound { result ≤ 372 }
{
    let mut days = 0;
    for at in 0..count {
        days = days + days_of_month(year, at + 1);
    }
    days
}

/// Whether its parts are those of a moment from 1970 on.
fn is_moment(moment: &Moment) -> bool
    ensures { result ≡ is_moment moment.now }
{
    let is_day = moment.day >= 1 && moment.day <= days_of_month(moment.year, moment.month);
    let is_date = moment.year >= 1970 && moment.month >= 1 && moment.month <= 12 && is_day;
    is_date && moment.hour < 24 && moment.minute < 60 && moment.second < 60
}

/// The seconds of a moment.
fn seconds_of(moment: &Moment) -> u64
    requires year { moment.now.year ≤ 1000000 }
    requires month { moment.now.month ≤ 12 }
    requires day { moment.now.day ≤ 31 }
    requires hour { moment.now.hour ≤ 24 }
    requires minute { moment.now.minute ≤ 60 }
    requires second { moment.now.second ≤ 60 }
    ensures { result ≡ seconds_of moment.now }
{
    let years = days_of_years(moment.year.saturating_sub(1970));
    let months = days_of_months(moment.year, moment.month.saturating_sub(1));
    let days = years + months + moment.day.saturating_sub(1);
    ((days * 24 + moment.hour) * 60 + moment.minute) * 60 + moment.second
}

/// A digit as 0, and another byte as it is.
fn shape_of(byte: &u8) -> u8
    ensures { result ≡ shape_of byte.now }
{
    if byte.is_ascii_digit() { b'0' } else { *byte }
}

/// A text with each digit as 0.
fn shape_in(alloc: Global, text: &[u8]) -> Result<Vec<u8>, AllocError>
    ensures { IfOk result (λ shape. shape.items ≡ map shape_of text.now) }
{
    let mut shape = Vec::new(alloc);
    for byte in text {
        shape.push(shape_of(byte))?;
    }
    Ok(shape)
}

/// Whether a text has digits and signs if a moment has them.
fn is_shaped(alloc: Global, text: &[u8]) -> Result<bool, AllocError>
    ensures { IfOk result (λ is. is ≡ is_shaped text.now) }
{
    let shape = shape_in(alloc, text)?;
    Ok(shape.as_slice() == b"0000-00-00T00:00:00Z".as_slice())
}

/// The number that two digits are.
fn two_at(text: &[u8], at: usize) -> u64
    requires { at + 1 < length text.now }
    ensures number { result ≡ two_at at text.now }
    ensures bound { result ≤ 2300 }
{
    let tens = text[at].saturating_sub(b'0') as u64;
    let ones = text[at + 1].saturating_sub(b'0') as u64;
    tens * 10 + ones
}

/// The parts of a text of the length of a moment's.
fn read_of(text: &[u8]) -> Moment
    requires { length text.now ≡ 20 }
    ensures { result ≡ read_of text.now }
{
    Moment {
        year: two_at(text, 0) * 100 + two_at(text, 2),
        month: two_at(text, 5),
        day: two_at(text, 8),
        hour: two_at(text, 11),
        minute: two_at(text, 14),
        second: two_at(text, 17),
    }
}

/// The second that a text names, in seconds since 1970.
///
/// # Errors
/// `AllocError` if a growth of memory was refused.
pub fn moment_in(alloc: Global, text: &[u8]) -> Result<Option<u64>, AllocError>
    ensures { IfOk result (λ o. o ≡ moment_in text.now) }
{
    if !is_shaped(alloc, text)? || text.len() != 20 {
        return Ok(None);
    }
    let moment = read_of(text);
    if is_moment(&moment) {
        Ok(Some(seconds_of(&moment)))
    } else {
        Ok(None)
    }
}
