//! Dates, datetimes and timestamps, as MySQL packs them.
ghost use Rattle.std.specs.Prelude.{◌≡◌, ◌≤◌, ◌⊎◌, ◌+◌, ◌++◌, codes, length, take, OnErr, OnOk};
ghost use Rattle.vs_columns.specs.Dates.{
  date_text,
  datetime_in,
  datetime_text,
  day_of,
  day_text,
  fraction_in,
  fraction_size,
  fraction_text,
  is_day,
  is_fraction,
  is_time,
  packed_day,
  time_of,
  time_text,
  timestamp_text,
};
ghost use Rattle.vs_columns.specs.Values.{done, said};

use crate::ValueRefusal;
use crate::digits::{behind, digit, six_digits};
use byteorder::{BigEndian, ByteOrder, LittleEndian};
use itoa::Buffer;
use vs_base::OutOfMemory;

/// A day of the calendar; each of its parts may be 0.
#[derive(Clone, Copy)]
pub(crate) struct Day {
    year: u64,
    month: u64,
    day: u64,
}

/// A time of a day.
#[derive(Clone, Copy)]
pub(crate) struct Time {
    hour: u64,
    minute: u64,
    second: u64,
}

impl Day {
    fn packed(number: u64) -> Day
        ensures { result ≡ packed_day number }
    {
        Day {
            year: number / 512,
            month: number / 32 % 16,
            day: number % 32,
        }
    }

    /// The day of a datetime, from its number without the bit of the sign.
    fn of(number: u64) -> Day
        ensures { result ≡ day_of number }
    {
        Day {
            year: number / 4_194_304 / 13,
            month: number / 4_194_304 % 13,
            day: number / 131_072 % 32,
        }
    }

    fn is_day(self) -> bool
        ensures { result ≡ is_day self }
    {
        self.month <= 12 && self.year <= 9999
    }

    #[tactic(auto, unfolding(crate::specs::Digits::padded))]
    fn text(self) -> [u8; 10]
        ensures { result ≡ day_text self }
    {
        [
            digit(self.year / 10 / 10 / 10),
            digit(self.year / 10 / 10),
            digit(self.year / 10),
            digit(self.year),
            b'-',
            digit(self.month / 10),
            digit(self.month),
            b'-',
            digit(self.day / 10),
            digit(self.day),
        ]
    }
}

impl Time {
    /// The time of a datetime, from its number without the bit of the sign.
    fn of(number: u64) -> Time
        ensures { result ≡ time_of number }
    {
        Time {
            hour: number / 4096 % 32,
            minute: number / 64 % 64,
            second: number % 64,
        }
    }

    fn is_time(self) -> bool
        ensures { result ≡ is_time self }
    {
        self.hour <= 23 && self.minute <= 59 && self.second <= 59
    }

    #[tactic(auto, unfolding(crate::specs::Digits::padded))]
    fn text(self) -> [u8; 8]
        ensures { result ≡ time_text self }
    {
        [
            digit(self.hour / 10),
            digit(self.hour),
            b':',
            digit(self.minute / 10),
            digit(self.minute),
            b':',
            digit(self.second / 10),
            digit(self.second),
        ]
    }
}

/// Appends the date in three bytes.
pub(crate) fn push_date(body: &[u8], out: &mut Vec<u8>) -> Result<(), ValueRefusal>
    requires { length body.now ≡ 3 }
    ensures told { (result ≡ Err ValueRefusal.Memory) ⊎ (result ≡ done (date_text body.now)) }
    ensures ok { OnOk result (out.new.items ≡ out.old.items ++ said (date_text body.now)) }
    ensures err { OnErr result (take (length out.old.items) out.new.items ≡ out.old.items) }
{
    let day = Day::packed(LittleEndian::read_uint(body, 3));
    if !day.is_day() {
        return Err(ValueRefusal::BadValue);
    }
    out.extend_from_slice(&day.text())?;
    Ok(())
}

/// Appends the seconds since 1970, with a fraction of so many digits.
pub(crate) fn push_timestamp(
    body: &[u8],
    precision: u8,
    out: &mut Vec<u8>,
) -> Result<(), ValueRefusal>
    requires precision { precision ≤ 6 }
    requires size { length body.now ≡ 4 + fraction_size precision }
    ensures told { (result ≡ Err ValueRefusal.Memory) ⊎ (result ≡ done (timestamp_text precision body.now)) }
    ensures ok { OnOk result (out.new.items ≡ out.old.items ++ said (timestamp_text precision body.now)) }
    ensures err { OnErr result (take (length out.old.items) out.new.items ≡ out.old.items) }
{
    let fraction = fraction_number(behind(body, 4), precision);
    if !is_fraction(fraction, precision) {
        return Err(ValueRefusal::BadValue);
    }
    let mut buffer = Buffer::new();
    let seconds = BigEndian::read_u32(body);
    out.extend_from_slice(buffer.format(seconds).as_bytes())?;
    push_fraction(fraction, precision, out)?;
    Ok(())
}

/// Appends the day and the time, with a fraction of so many digits.
pub(crate) fn push_datetime(
    body: &[u8],
    precision: u8,
    out: &mut Vec<u8>,
) -> Result<(), ValueRefusal>
    requires precision { precision ≤ 6 }
    requires size { length body.now ≡ 5 + fraction_size precision }
    ensures told { (result ≡ Err ValueRefusal.Memory) ⊎ (result ≡ done (datetime_text precision body.now)) }
    ensures ok { OnOk result (out.new.items ≡ out.old.items ++ said (datetime_text precision body.now)) }
    ensures err { OnErr result (take (length out.old.items) out.new.items ≡ out.old.items) }
{
    let number = datetime_number(body);
    if number < 0x80_0000_0000 {
        return Err(ValueRefusal::BadValue);
    }
    let day = Day::of(number - 0x80_0000_0000);
    let time = Time::of(number - 0x80_0000_0000);
    let fraction = fraction_number(behind(body, 5), precision);
    if !day.is_day() || !time.is_time() || !is_fraction(fraction, precision) {
        return Err(ValueRefusal::BadValue);
    }
    push_day_and_time(day, time, out)?;
    push_fraction(fraction, precision, out)?;
    Ok(())
}

fn push_day_and_time(day: Day, time: Time, out: &mut Vec<u8>) -> Result<(), OutOfMemory>
    ensures ok { OnOk result (out.new.items ≡ out.old.items ++ (day_text day ++ codes " " ++ time_text time)) }
    ensures err { OnErr result (take (length out.old.items) out.new.items ≡ out.old.items) }
{
    out.extend_from_slice(&day.text())?;
    out.push(b' ')?;
    out.extend_from_slice(&time.text())
}

pub(crate) fn fraction_size(precision: u8) -> usize
    ensures { result ≡ fraction_size precision }
{
    (precision as usize + 1) / 2
}

#[tactic(auto, unfolding(crate::specs::Dates::datetime_in))]
fn datetime_number(bytes: &[u8]) -> u64
    requires { 5 ≤ length bytes.now }
    ensures { result ≡ datetime_in bytes.now }
{
    BigEndian::read_uint(bytes, 5)
}

#[tactic(auto, unfolding(crate::specs::Dates::fraction_in))]
fn fraction_number(bytes: &[u8], precision: u8) -> u64
    requires precision { precision ≤ 6 }
    requires size { length bytes.now ≡ fraction_size precision }
    ensures { result ≡ fraction_in precision bytes.now }
{
    match precision {
        0 => 0,
        _ => BigEndian::read_uint(bytes, fraction_size(precision)),
    }
}

/// Whether the number of a fraction has no more digits than its bytes are for.
fn is_fraction(number: u64, precision: u8) -> bool
    requires { precision ≤ 6 }
    ensures { result ≡ is_fraction precision number }
{
    match precision {
        0 => number < 1,
        1 | 2 => number < 100,
        3 | 4 => number < 10_000,
        _ => number < 1_000_000,
    }
}

fn push_fraction(number: u64, precision: u8, out: &mut Vec<u8>) -> Result<(), OutOfMemory>
    requires { precision ≤ 6 }
    ensures ok { OnOk result (out.new.items ≡ out.old.items ++ fraction_text precision number) }
    ensures err { OnErr result (take (length out.old.items) out.new.items ≡ out.old.items) }
{
    if precision == 0 {
        return Ok(());
    }
    let digits = six_digits(number);
    let unused = 6 - 2 * fraction_size(precision);
    out.push(b'.')?;
    out.extend_from_slice(&behind(&digits, unused)[..precision as usize])?;
    Ok(())
}
