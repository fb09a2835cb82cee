//! GeneralizedTime, ITU-T X.690 section 11.7: `YYYYMMDDHHMMSSZ`.

ghost use Rattle.std.specs.Prelude.{◌≡◌, ◌+◌, ◌-◌, ◌*◌, ◌/◌, ◌%◌, ◌<◌, ◌≤◌, ◌&&◌, nat_lt};
ghost use Rattle.std.specs.Prelude.{if◌then◌else◌, take, length, Some, None, IfSome, OnOk, OnErr};
ghost use Rattle.der_core.specs.Format.{Reads, ReadsSpellings, AreOctets, Puts};
ghost use Rattle.der_core.specs.Time.{day_number, is_date, year_of, month_of, day_of, seconds_of};
ghost use Rattle.der_core.specs.Time.{is_civil, is_zulu, numbers, are_digits, is_time, time};

use crate::{DerRefusal, Reader, Writer};
use jiff_core::civil::Date;
use sec_base::{Moment, NoMemory};

/// The seconds of a day.
const DAY: u64 = 86_400;

/// The days from the library's first date to 1 January 1970.
const DAYS_BEFORE_1970: u32 = 4_371_587;

impl<'a> Reader<'a> {
    /// The next element, a GeneralizedTime from 1970 on.
    pub fn time(&mut self) -> Result<Moment, DerRefusal>
        ensures exact { Reads (λ m. m) self.new result (time.read self.old) }
        ensures spelled { ReadsSpellings (λ m. m) time self.old self.new result }
        ensures stays { OnErr result (self.new ≡ self.old) }
    {
        self.next_time()
    }

    /// What `time` answers.
    /// It stands apart, so that its definition is unfolded here alone, and the other clauses are proved from what is said here.
    #[tactic(auto, unfolding(crate::specs::Time::time))]
    fn next_time(&mut self) -> Result<Moment, DerRefusal>
        ensures exact { Reads (λ m. m) self.new result (time.read self.old) }
        ensures stays { OnErr result (self.new ≡ self.old) }
        ensures octets { AreOctets self.old.octets }
    {
        let mut ahead = self.again();
        let content = ahead.element(0x18)?;
        match moment_of(content.rest()) {
            Some(moment) => {
                *self = ahead;
                Ok(moment)
            }
            None => Err(content.no_value()),
        }
    }
}

impl Writer {
    /// Adds a GeneralizedTime.
    #[tactic(auto, unfolding(crate::specs::Time::time))]
    pub fn put_time(&mut self, v: Moment) -> Result<(), NoMemory>
        requires { v % 1000000 ≡ 0 }
        ensures spells { OnOk result (Puts time v self.old self.new) }
        ensures stays { OnErr result (self.new ≡ self.old) }
    {
        let secs = v.secs();
        let (year, month, day) = date_of((secs / DAY) as u32);
        self.put_tlv(
            0x18,
            &[
                tens((year / 100) as u8),
                ones((year / 100) as u8),
                tens((year % 100) as u8),
                ones((year % 100) as u8),
                tens(month),
                ones(month),
                tens(day),
                ones(day),
                tens((secs % DAY / 3600) as u8),
                ones((secs % DAY / 3600) as u8),
                tens((secs % 3600 / 60) as u8),
                ones((secs % 3600 / 60) as u8),
                tens((secs % 60) as u8),
                ones((secs % 60) as u8),
                b'Z',
            ],
        )
    }
}

/// The moment that octets spell.
#[tactic(auto, using(crate::proofs::CivilTimes::short_no_time), unfolding(crate::specs::Time::is_time))]
fn moment_of(octets: &[u8]) -> Option<Moment>
    ensures { result ≡ (if is_time octets.now
        then Some (seconds_of (numbers (take 14 octets.now)) * 1000000) else None) }
{
    if octets.len() < 14 {
        return None;
    }
    let (digits, zone) = octets.split_at(14);
    if !are_digits(digits) {
        return None;
    }
    if !is_zulu(zone) {
        return None;
    }
    civil_moment(digits)
}

/// Whether this is the one octet `Z`.
fn is_zulu(octets: &[u8]) -> bool
    ensures { result ≡ is_zulu octets.now }
{
    match octets {
        [octet] => *octet == b'Z',
        _ => false,
    }
}

/// The moment of fourteen digits: year, month, day, hour, minute and second.
fn civil_moment(digits: &[u8]) -> Option<Moment>
    requires { length digits.now ≡ 14 }
    ensures { result ≡ (if is_civil (numbers digits.now)
        then Some (seconds_of (numbers digits.now) * 1000000) else None) }
{
    match digits {
        [a, b, c, d, e, f, g, h, i, j, k, l, m, n] => moment_at(
            two(*a, *b) * 100 + two(*c, *d),
            two(*e, *f),
            two(*g, *h),
            two(*i, *j),
            two(*k, *l),
            two(*m, *n),
        ),
        [..] => unreachable!(),
    }
}

/// The moment of a date and a time of day.
fn moment_at(year: u32, month: u32, day: u32, hour: u32, minute: u32, second: u32) -> Option<Moment>
    ensures { result ≡ (if is_date year month day
        && (nat_lt hour 24 && (nat_lt minute 60 && nat_lt second 60))
        then Some ((day_number year month day * 86400
        + (hour * 3600 + (minute * 60 + second))) * 1000000)
        else None) }
{
    let days = day_number(year, month, day)?;
    let within = second_of_day(hour, minute, second)?;
    Moment::new(days as u64 * DAY + within as u64, 0)
}

/// The seconds from midnight to a time of day.
fn second_of_day(hour: u32, minute: u32, second: u32) -> Option<u32>
    ensures value { result ≡ (if nat_lt hour 24 && (nat_lt minute 60 && nat_lt second 60)
        then Some (hour * 3600 + (minute * 60 + second)) else None) }
    ensures bound { IfSome result (λ n. n < 86400) }
{
    if hour < 24 && minute < 60 && second < 60 {
        Some(hour * 3600 + (minute * 60 + second))
    } else {
        None
    }
}

/// The days from 1 January 1970 to a date.
fn day_number(year: u32, month: u32, day: u32) -> Option<u32>
    ensures value { result
        ≡ (if is_date year month day then Some (day_number year month day) else None) }
    ensures bound { IfSome result (λ n. n < 2932897) }
{
    if year < 1970 || year > 9999 || month > 12 || day > 31 {
        return None;
    }
    match Date::new(year as i16, month as i8, day as i8) {
        Ok(date) => Some(date.to_unix_epoch_day().unsigned_abs()),
        Err(_) => None,
    }
}

/// Year, month and day of a day after 1 January 1970.
fn date_of(day: u32) -> (u16, u8, u8)
    requires { day < 2932897 }
    ensures year { result.0 ≡ year_of day }
    ensures month { result.1 ≡ month_of day }
    ensures day { result.2 ≡ day_of day }
    ensures to { result.0 < 10000 }
{
    let date = Date::from_days_since_min(day + DAYS_BEFORE_1970);
    (date.year.unsigned_abs(), date.month, date.day)
}

/// Whether each is a decimal digit.
fn are_digits(octets: &[u8]) -> bool
    ensures { result ≡ are_digits octets.now }
{
    for octet in octets {
        if !octet.is_ascii_digit() {
            return false;
        }
    }
    true
}

/// The number of two digits.
fn two(tens: u8, ones: u8) -> u32
    ensures number { result ≡ (tens - 48) * 10 + (ones - 48) }
    ensures small { result < 3000 }
{
    tens.saturating_sub(48) as u32 * 10 + ones.saturating_sub(48) as u32
}

/// The first digit of a number below 100.
fn tens(number: u8) -> u8
    ensures { result ≡ 48 + number / 10 }
{
    48 + number / 10
}

/// The second digit of a number below 100.
fn ones(number: u8) -> u8
    ensures { result ≡ 48 + number % 10 }
{
    48 + number % 10
}
