//! Moments as dates and times (RFC 3339).
ghost use Rattle.std.specs.Prelude.{◌≡◌, ◌<◌, ◌≤◌};
ghost use Rattle.dkv_base.specs.declared.moments.TheConstants.{MAX_MOMENT};
ghost use Rattle.dkv_meta.specs.Reply.{IsShown, two_digits, date_time};

use jiff::Timestamp;
use jiff::civil::DateTime;
use jiff::tz::Offset;

// The length of a date and time.
pub(crate) const DATE_TIME_BYTES: usize = 20;

// The date and time that a clock in UTC shows at a moment.
pub(crate) fn shown(moment: u64) -> DateTime
    requires { moment ≤ MAX_MOMENT }
    ensures { IsShown moment result }
{
    let instant = Timestamp::from_millisecond(moment as i64).unwrap();
    Offset::UTC.to_datetime(instant)
}

// The text of a date and time in UTC, without the fraction of the second.
pub(crate) fn date_time(when: DateTime) -> [u8; DATE_TIME_BYTES]
    ensures { result ≡ date_time when }
{
    let year = when.year().unsigned_abs();
    let [y0, y1] = two_digits((year / 100) as u8);
    let [y2, y3] = two_digits((year % 100) as u8);
    let [m0, m1] = two_digits(when.month() as u8);
    let [d0, d1] = two_digits(when.day() as u8);
    let [h0, h1] = two_digits(when.hour() as u8);
    let [n0, n1] = two_digits(when.minute() as u8);
    let [s0, s1] = two_digits(when.second() as u8);
    [
        y0, y1, y2, y3, b'-', m0, m1, b'-', d0, d1, b'T', h0, h1, b':', n0, n1, b':', s0, s1, b'Z',
    ]
}

// The two digits of a number.
fn two_digits(number: u8) -> [u8; 2]
    requires { number < 100 }
    ensures { result ≡ two_digits number }
{
    [b'0' + number / 10, b'0' + number % 10]
}
