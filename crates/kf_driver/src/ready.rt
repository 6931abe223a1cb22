//! Attributes that are ready to use: a number, a signed number, a switch and a text.
ghost use Rattle.std.specs.Prelude.{◌≡◌, [], Ok};
ghost use Rattle.kf_driver.specs.Ready.{ShowsLine, TakesFlag, TakesNumber, TakesSigned, shown_line};
ghost use Rattle.kf_text.specs.declared.part.Part.TheVariants as part;

use crate::callbacks::{Show, Store};
use crate::fault::fault_of;
use kf_files::{Fault, Page};
use kf_text::{Part, emit, read_flag, read_signed, read_unsigned};
use std::sync::atomic::{AtomicBool, AtomicI64, AtomicU64, Ordering};

/// Fills an empty page with a part and a newline, as most shows do.
///
/// Condition: the page is empty.
pub fn emit_line(page: &mut Page, part: Part<'_>)
    requires empty { page.old.items ≡ [] }
    ensures line { page.new.items ≡ shown_line part.entry }
{
    emit(page, &[part, Part::Newline]);
}

/// A number that is shown in decimal (`DEVICE_ULONG_ATTR`). A store accepts a number of at most `most`. Any
/// thread may store a new number at any time, so no clause says what the value is.
#[derive(Drop)]
pub struct Number {
    value: AtomicU64,
    most: u64,
}

impl Number {
    /// Makes the attribute with this value. A store accepts a number of at most `most`.
    pub fn new(value: u64, most: u64) -> Number
        ensures most { result.most ≡ most }
    {
        Number {
            value: AtomicU64::new(value),
            most,
        }
    }

    /// The current number.
    pub fn get(&self) -> u64 {
        self.value.load(Ordering::SeqCst)
    }

    /// Sets the number, which may be above `most`.
    pub fn set(&self, value: u64) {
        self.value.store(value, Ordering::SeqCst);
    }
}

impl Show for Number {
    ghost shows = { λ _ filled. ShowsLine part.Number filled };

    fn show(&self, page: &mut Page) -> Result<(), Fault> {
        emit_line(page, Part::Number(self.get()));
        Ok(())
    }
}

impl Store for Number {
    ghost takes = { λ number bytes answer. TakesNumber number.most bytes answer };

    fn store(&self, bytes: &[u8]) -> Result<(), Fault> {
        match read_unsigned(bytes, self.most) {
            Ok(value) => {
                self.set(value);
                Ok(())
            }
            Err(why) => Err(fault_of(why)),
        }
    }
}

/// A number that may be negative (`DEVICE_INT_ATTR`). A store accepts a number from `least` to `most`. Any
/// thread may store a new number at any time, so no clause says what the value is.
#[derive(Drop)]
pub struct Signed {
    value: AtomicI64,
    least: i64,
    most: i64,
}

impl Signed {
    /// Makes the attribute with this value. A store accepts a number from `least` to `most`.
    pub fn new(value: i64, least: i64, most: i64) -> Signed
        ensures least { result.least ≡ least }
        ensures most { result.most ≡ most }
    {
        Signed {
            value: AtomicI64::new(value),
            least,
            most,
        }
    }

    /// The current number.
    pub fn get(&self) -> i64 {
        self.value.load(Ordering::SeqCst)
    }

    /// Sets the number, which may be outside these bounds.
    pub fn set(&self, value: i64) {
        self.value.store(value, Ordering::SeqCst);
    }
}

impl Show for Signed {
    ghost shows = { λ _ filled. ShowsLine part.Signed filled };

    fn show(&self, page: &mut Page) -> Result<(), Fault> {
        emit_line(page, Part::Signed(self.get()));
        Ok(())
    }
}

impl Store for Signed {
    ghost takes = { λ number bytes answer. TakesSigned number.least number.most bytes answer };

    fn store(&self, bytes: &[u8]) -> Result<(), Fault> {
        match read_signed(bytes, self.least, self.most) {
            Ok(value) => {
                self.set(value);
                Ok(())
            }
            Err(why) => Err(fault_of(why)),
        }
    }
}

/// A switch that is shown as `1` or `0` (`DEVICE_BOOL_ATTR`). A store accepts what `read_flag` accepts. Any
/// thread may store a new value at any time, so no clause says what the value is.
#[derive(Drop)]
pub struct Switch {
    value: AtomicBool,
}

impl Switch {
    /// Makes a switch that is on if `value` is true.
    pub fn new(value: bool) -> Switch {
        Switch {
            value: AtomicBool::new(value),
        }
    }

    /// Whether the switch is on at the moment.
    pub fn get(&self) -> bool {
        self.value.load(Ordering::SeqCst)
    }

    /// Turns it on or off.
    pub fn set(&self, value: bool) {
        self.value.store(value, Ordering::SeqCst);
    }
}

impl Show for Switch {
    ghost shows = { λ _ filled. ShowsLine part.Flag filled };

    fn show(&self, page: &mut Page) -> Result<(), Fault> {
        emit_line(page, Part::Flag(self.get()));
        Ok(())
    }
}

impl Store for Switch {
    ghost takes = { λ _ bytes answer. TakesFlag bytes answer };

    fn store(&self, bytes: &[u8]) -> Result<(), Fault> {
        match read_flag(bytes) {
            Ok(value) => {
                self.set(value);
                Ok(())
            }
            Err(why) => Err(fault_of(why)),
        }
    }
}

/// A text that is shown with a newline after it (`DEVICE_STRING_ATTR_RO`). In its row it is wrapped in
/// `ReadOnly`.
#[derive(Clone, Copy)]
pub struct Text<'a>(pub &'a [u8]);

impl Show for Text<'_> {
    ghost shows = { λ text filled. filled ≡ Ok (shown_line (part.Text text.0)) };

    fn show(&self, page: &mut Page) -> Result<(), Fault> {
        emit_line(page, Part::Text(self.0));
        Ok(())
    }
}
