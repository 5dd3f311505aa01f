//! A stamp as its civil date and its time of day, in UTC.
ghost use Rattle.std.specs.Prelude.{◌≡◌, ◌<◌, ◌++◌, pos, OnOk};
ghost use Rattle.jiff.specs.Words.{epoch_day};
ghost use Rattle.pm_print.specs.Calendar.{day_at};
ghost use Rattle.pm_print.specs.Stamps.{digits, date_text, clock_text, stamp_text};

use jiff::ToSpan;
use jiff::civil::{Date, date};
use pcp_base::{NoMemory, Stamp};

/// A civil date.
#[derive(Clone, Copy)]
pub struct Day {
    pub year: u32,
    pub month: u32,
    pub day: u32,
}

// The last decimal digits of a number, so many.
#[tactic(auto, unfolding(crate::specs::Stamps::digits))]
fn put_digits(out: &mut Vec<u8>, count: u32, number: u32) -> Result<(), NoMemory>
    ensures { OnOk result (out.new.items ≡ out.old.items ++ digits count number) }
{
    if count == 0 {
        return Ok(());
    }
    put_digits(out, count - 1, number / 10)?;
    out.push(b'0' + (number % 10) as u8)?;
    Ok(())
}

// The date so many days after 1970-01-01; a stamp's day is below 24,856.
fn date_of(number: u32) -> Date
    requires { number < 24856 }
    ensures { epoch_day result ≡ pos number }
{
    let first = date(1970, 1, 1);
    match first.checked_add((number as i64).days()) {
        Ok(date) => date,
        Err(_) => first,
    }
}

fn day_of(number: u32) -> Day
    requires { number < 24856 }
    ensures { result ≡ day_at number }
{
    let date = date_of(number);
    Day {
        year: date.year().unsigned_abs() as u32,
        month: date.month().unsigned_abs() as u32,
        day: date.day().unsigned_abs() as u32,
    }
}

// `YYYY-MM-DD`
#[tactic(auto, unfolding(crate::specs::Stamps::date_text))]
fn put_date(out: &mut Vec<u8>, day: Day) -> Result<(), NoMemory>
    ensures { OnOk result (out.new.items ≡ out.old.items ++ date_text day) }
{
    put_digits(out, 4, day.year)?;
    out.push(b'-')?;
    put_digits(out, 2, day.month)?;
    out.push(b'-')?;
    put_digits(out, 2, day.day)?;
    Ok(())
}

// `HH:MM:SS.uuuuuu`
#[tactic(auto, unfolding(crate::specs::Stamps::clock_text))]
fn put_clock(out: &mut Vec<u8>, stamp: Stamp) -> Result<(), NoMemory>
    ensures { OnOk result (out.new.items ≡ out.old.items ++ clock_text stamp) }
{
    let sec = stamp.sec();
    put_digits(out, 2, sec / 3600 % 24)?;
    out.push(b':')?;
    put_digits(out, 2, sec / 60 % 60)?;
    out.push(b':')?;
    put_digits(out, 2, sec % 60)?;
    out.push(b'.')?;
    put_digits(out, 6, stamp.usec())?;
    Ok(())
}

/// A stamp, `YYYY-MM-DDTHH:MM:SS.uuuuuuZ`.
#[tactic(auto, unfolding(crate::specs::Stamps::stamp_text))]
pub fn put_stamp(out: &mut Vec<u8>, stamp: Stamp) -> Result<(), NoMemory>
    ensures { OnOk result (out.new.items ≡ out.old.items ++ stamp_text stamp) }
{
    put_date(out, day_of(stamp.sec() / 86_400))?;
    out.push(b'T')?;
    put_clock(out, stamp)?;
    out.push(b'Z')?;
    Ok(())
}
