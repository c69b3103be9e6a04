//! Values, kept as their bytes.
ghost use Rattle.std.specs.Prelude.{◌≡◌, ◌≤◌, ◌≤ℤ◌, ◌↔◌, length, IfOk, IsErrOf, IsOk, IsTrue, false, pos};
ghost use Rattle.std.specs.Fmt.{decimal};
ghost use Rattle.value_text.specs.Grammar.{ReadsTheValues};
ghost use Rattle.value_text.specs.Values.{is_value};
ghost use Rattle.value_text.specs.Numbers.{number, seconds3};

use crate::grammar;
use crate::numbers::seconds_text;
use label_set::NoMemory;
use smallvec::SmallVec;
use std::alloc::{AllocError, Global};
use std::marker::Model;

/// The bytes are no value.
#[derive(Clone, Copy, PartialEq, Eq, Debug)]
pub struct BadValue;

/// Why a value was not kept.
#[derive(Clone, Copy, PartialEq, Eq, Debug)]
pub enum ValueError {
    /// The bytes are no value.
    BadValue,
    /// An allocation failed.
    NoMemory,
}

impl From<AllocError> for ValueError {
    ghost use Rattle.std.specs.Prelude.{◌≡◌};
    ghost use Rattle.value_text.specs.declared.texts.ValueError.TheVariants.{NoMemory};

    ghost from_gives = { λ _ error. error ≡ NoMemory };

    fn from(_: AllocError) -> ValueError {
        ValueError::NoMemory
    }
}

/// A text of at most so many bytes stands in the value itself: each float in its shortest form fits.
const SHORT: usize = 24;

/// The text of a value, at most 128 bytes. A short one takes no memory of its own.
#[derive(Drop, Debug)]
pub struct ValueText {
    bytes: SmallVec<u8, SHORT>,
}

impl Model for ValueText {
    ghost use Rattle.std.specs.Prelude.{ℕ, List, IsTrue};
    ghost use Rattle.value_text.specs.Values.{is_value};

    ghost Value = { List ℕ };

    ghost view = { λ v. v.bytes.items };

    ghost invariant = { λ v. IsTrue (is_value v.bytes.items) };
}

impl ValueText {
    /// Whether the bytes are a value.
    pub fn check(bytes: &[u8]) -> Result<(), BadValue>
        ensures { IsOk result ↔ IsTrue (is_value bytes.now) }
    {
        if grammar::is_value(bytes) {
            Ok(())
        } else {
            Err(BadValue)
        }
    }

    /// Keeps the bytes of a value. They are looked at before memory is asked for.
    pub fn keep(alloc: Global, bytes: &[u8]) -> Result<ValueText, ValueError>
        ensures kept { IfOk result (λ v. v ≡ bytes.now) }
        ensures value { IfOk result (λ _. IsTrue (is_value bytes.now)) }
        ensures bad { IsErrOf result ValueError.BadValue → is_value bytes.now ≡ false }
        ensures looked_first { IsErrOf result ValueError.NoMemory → IsTrue (is_value bytes.now) }
    {
        if !grammar::is_value(bytes) {
            return Err(ValueError::BadValue);
        }
        Ok(ValueText {
            bytes: SmallVec::from_slice(alloc, bytes)?,
        })
    }

    /// Keeps bytes that are known to be a value.
    pub fn keep_checked(alloc: Global, bytes: &[u8]) -> Result<ValueText, NoMemory>
        requires { IsTrue (is_value bytes.now) }
        ensures { IfOk result (λ v. v ≡ bytes.now) }
    {
        Ok(ValueText {
            bytes: SmallVec::from_slice(alloc, bytes)?,
        })
    }

    /// A count, in decimal digits.
    pub fn of_count(alloc: Global, count: u64) -> Result<ValueText, NoMemory>
        ensures { IfOk result (λ v. v ≡ decimal count) }
    {
        let text = count.to_string(alloc)?;
        Ok(ValueText {
            bytes: SmallVec::from_vec(text.into_bytes()),
        })
    }

    /// Milliseconds, as seconds with three decimals.
    pub fn of_millis(alloc: Global, ms: i64) -> Result<ValueText, NoMemory>
        requires { pos 0 ≤ℤ ms }
        ensures { IfOk result (λ v. v ≡ seconds3 (number ms)) }
    {
        Ok(ValueText {
            bytes: SmallVec::from_vec(seconds_text(alloc, ms)?),
        })
    }

    /// The bytes of the value.
    pub fn bytes(&self) -> &[u8]
        ensures bytes { result.now ≡ self.now }
        ensures value { IsTrue (is_value self.now) }
    {
        self.bytes.as_slice()
    }

    /// A copy.
    pub fn copy(&self, alloc: Global) -> Result<ValueText, NoMemory>
        ensures { IfOk result (λ v. v ≡ self.now) }
    {
        Ok(ValueText {
            bytes: SmallVec::from_slice(alloc, self.bytes())?,
        })
    }
}

/// The law that ties the test of a value to the grammar of values: it accepts what is written as one, and nothing else. It does nothing.
pub fn reads_the_values()
    ensures { ReadsTheValues }
{}
